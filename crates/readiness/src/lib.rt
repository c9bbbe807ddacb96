// Readiness of tasks over the lent records: for one answer the marks of at most three other tasks are read.
#![tactic(auto)]

ghost use Rattle.std.specs.Prelude.{◌≡◌};
ghost use Rattle.model.specs.Task.{tasks};
ghost use Rattle.model.specs.Links.{ready};
ghost use Rattle.records.specs.Records.{marks_from};
ghost use Rattle.marks.specs.Marks.{Recorded};

use marks::{WAITING, is_finished};
use neighbours::link_marks;
use records::{Record, mark_of};

// Whether task p is ready.
pub fn is_ready(n: usize, records: &[Record], p: usize) -> bool
    requires { Recorded n records.now p }
    ensures { result ≡ ready (tasks n) (marks_from records.now) p }
{
    if mark_of(records, p) != WAITING {
        return false;
    }
    let m = link_marks(n, records, p);
    if !is_finished(m.back) {
        return false;
    }
    is_finished(m.above) & is_finished(m.left)
}
