// Refusal 4's limits of a task, by its mark and the workers that hold it.
#![tactic(auto)]

ghost use Rattle.std.specs.Prelude.{◌≡◌, List, [], ℕ, ◌*◌, ◌≤◌, length, Ok};
ghost use Rattle.worker.specs.declared.Worker.{Worker as SomeWorker};
ghost use Rattle.model.specs.Limits.{most_workers};
ghost use Rattle.model.specs.Lists.{keep};
ghost use Rattle.model.specs.Links.{mark as markAt, taken};
ghost use Rattle.model.specs.Refusal.{holds, next_column};
ghost use Rattle.records.specs.Records.{marks_from, crew};
ghost use Rattle.checks.specs.Checks.{Sized, held};
ghost use Rattle.holds.specs.Allowed.{Allowed};

use marks::{DONE, FAILED, SPOILED};
use model::Sizes;
use worker::Slots;

// How many workers hold a task, and the sum of their next columns.
#[derive(Clone, Copy)]
pub struct Holders {
    pub count: usize,
    pub column: usize,
}

// The most that a task's tie sum may be, and the most accepted calls that it can have had.
#[derive(Clone, Copy)]
pub struct Limits {
    pub ties: usize,
    pub calls: usize,
}

// Those of the first `count` workers that hold task p.
fn held_by(workers: Slots, count: usize, p: usize) -> Holders
    requires { count ≤ most_workers }
    ensures { (result.count ≡ length (keep (holds p) (crew workers count))) × (result.column ≡ next_column (held [] workers count) p) × (result.column ≤ count * 255) }
{
    let mut n = 0;
    let mut column = 0;
    for h in &workers[..count] {
        if h.busy & (h.task as usize == p) {
            n += 1;
            column += h.column as usize;
        }
    }
    Holders { count: n, column }
}

// The limits of task p, which is taken: as an error where it is not held by one worker.
pub fn held_limits(z: Sizes, workers: Slots, p: usize) -> Result<Limits, Limits>
    requires { Sized z }
    ensures { (records : List (List ℕ)) → taken ≡ markAt (marks_from records) p → Allowed z records workers p result }
{
    let h = held_by(workers, z.workers, p);
    let limits = Limits {
        ties: z.side * h.column,
        calls: 1 + h.column,
    };
    if h.count == 1 {
        Ok(limits)
    } else {
        Err(limits)
    }
}

// The limits of a task with this mark, where that is not TAKEN: no worker counts for them.
pub fn free_limits(z: Sizes, mark: u8) -> Limits
    requires { Sized z }
    ensures { (records : List (List ℕ)) (slots : List SomeWorker) (p : ℕ) → mark ≡ markAt (marks_from records) p → (mark ≡ taken → ⊥) → Allowed z records slots p (Ok result) }
{
    let t = z.side;
    let (ties, calls) = match mark {
        DONE | FAILED => (t * t, t + 1),
        SPOILED => (0, t + 1),
        _ => (0, 0),
    };
    Limits { ties, calls }
}
