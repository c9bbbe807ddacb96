// Spoiling of tasks over the lent records: for one answer the marks of at most three other tasks are read.
#![tactic(auto)]

ghost use Rattle.std.specs.Prelude.{◌≡◌};
ghost use Rattle.model.specs.Task.{tasks};
ghost use Rattle.model.specs.Links.{spoils};
ghost use Rattle.records.specs.Records.{marks_from};
ghost use Rattle.marks.specs.Marks.{Recorded};

use marks::is_broken;
use neighbours::link_marks;
use records::Record;

// Whether a failed or spoiled task is the latest writer of something that task p touches.
pub fn is_spoiled(n: usize, records: &[Record], p: usize) -> bool
    requires { Recorded n records.now p }
    ensures { result ≡ spoils (tasks n) (marks_from records.now) p }
{
    let m = link_marks(n, records, p);
    is_broken(m.back) | is_broken(m.above) | is_broken(m.left)
}
