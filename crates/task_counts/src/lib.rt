// The count of a system's tasks.
#![tactic(auto)]

ghost use Rattle.std.specs.Prelude.{◌≡◌, ◌+◌, ◌≤◌, length};
ghost use Rattle.model.specs.Limits.{most_tiles};
ghost use Rattle.model.specs.Task.{tasks};

// How many tasks there are.
pub fn task_count(n: usize) -> usize
    requires { n ≤ most_tiles }
    ensures { result ≡ length (tasks n) }
{
    n * (n + 1) * (2 * n + 1) / 6
}
