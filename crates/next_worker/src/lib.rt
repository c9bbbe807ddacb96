// The worker that is next in a run, counting round.
#![tactic(auto)]

ghost use Rattle.std.specs.Prelude.{◌≡◌, suc, ◌%◌, ◌<◌};

// The worker after v, of `count`.
pub fn worker_after(count: usize, v: usize) -> usize
    requires { v < count }
    ensures { result ≡ suc v % count }
{
    let next = v + 1;
    if next < count {
        return next;
    }
    0
}
