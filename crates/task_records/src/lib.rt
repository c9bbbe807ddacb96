// Task records as a lent slice of structs, of which the calls work on copies in a slice of RECORD bytes each. Only the functions of
// loading and storing look inside the structs.
#![tactic(auto)]

ghost use Rattle.std.specs.Prelude.{◌≡◌, cond, ◌+◌, ltb};
ghost use Rattle.model.specs.Limits.{most_tasks};

use model::MOST_TASKS;

// How many copies a call may make: one more than the largest system has records.
pub const COPIES: usize = MOST_TASKS + 1;

// How many of n records a call looks at: all, or that many.
pub fn looked_at(n: usize) -> usize
    ensures { result ≡ cond (ltb n (most_tasks + 1)) n (most_tasks + 1) }
{
    n.min(COPIES)
}

// The end of the part that holds record p of n; 0 if there is no such record.
pub fn past(p: usize, n: usize) -> usize
    ensures { result ≡ cond (ltb p n) (p + 1) 0 }
{
    if p < n { p + 1 } else { 0 }
}
