// Refusal 4's test of the row lists.
#![tactic(auto)]

ghost use Rattle.std.specs.Prelude.{◌≡◌, ◌+◌, ◌*◌, ◌≤◌, ◌<◌, ltb, length, get_or};
ghost use Rattle.model.specs.Lengths.{ListsFit};
ghost use Rattle.model.specs.Limits.{most_side};
ghost use Rattle.model.specs.Lists.{below, run, some};
ghost use Rattle.model.specs.Plan.{plan_of};
ghost use Rattle.model.specs.Refusal.{entry_limit, bad_entry};
ghost use Rattle.checks.specs.Checks.{Sized, lists_alone};

use model::Sizes;

// The largest entry that list (i,j) may have.
fn entry_limit(z: Sizes, i: usize, j: usize) -> u8
    requires { (1 ≤ z.side) × (z.side ≤ most_side) }
    ensures { result ≡ entry_limit (plan_of z) i j }
{
    if i == j {
        return (z.side - 1) as u8;
    }
    if j < i {
        return z.side as u8;
    }
    0
}

// Whether one of the t entries from start on exceeds the limit. All are looked at, so that the loop has no branch.
fn exceeded(lists: &[u8], start: usize, t: usize, limit: u8) -> bool
    requires { start + t ≤ length lists.now }
    ensures { result ≡ some (λ x. ltb limit (get_or lists.now x 0)) (run start t) }
{
    let mut bad = false;
    for x in start..start + t {
        bad |= limit < lists[x];
    }
    bad
}

// Whether an entry of list (i,j) exceeds its limit.
fn bad_list(z: Sizes, lists: &[u8], i: usize, j: usize) -> bool
    requires { Sized z × ListsFit z lists.now × (i < z.tiles) × (j < z.tiles) }
    ensures { result ≡ some (bad_entry (plan_of z) (lists_alone lists.now)) (run ((i * z.tiles + j) * z.side) z.side) }
{
    let t = z.side;
    exceeded(lists, (i * z.tiles + j) * t, t, entry_limit(z, i, j))
}

// Whether an entry of a list in row i of tiles exceeds its limit.
fn bad_row(z: Sizes, lists: &[u8], i: usize) -> bool
    requires { Sized z × ListsFit z lists.now × (i < z.tiles) }
    ensures { result ≡ some (bad_entry (plan_of z) (lists_alone lists.now)) (run (i * (z.tiles * z.side)) (z.tiles * z.side)) }
{
    (0..z.tiles).any(|j| bad_list(z, lists, i, j))
}

// Whether some list has an entry above its limit.
pub fn bad_entries(z: Sizes, lists: &[u8]) -> bool
    requires { Sized z × ListsFit z lists.now }
    ensures { result ≡ some (bad_entry (plan_of z) (lists_alone lists.now)) (below (z.tiles * z.tiles * z.side)) }
{
    (0..z.tiles).any(|i| bad_row(z, lists, i))
}
