// The lowest unfinished task, whether there is one, and what a run answers by that.
#![tactic(auto)]

ghost use Rattle.std.specs.Prelude.{◌≡◌, cond, not, length, Ok, Some, None};
ghost use Rattle.model.specs.declared.RunStop.TheVariants.{Finished, Spent};
ghost use Rattle.model.specs.Lists.{below, every, keep, first_or};
ghost use Rattle.model.specs.Links.{mark as markAt, finished};
ghost use Rattle.records.specs.Records.{marks_from};

use marks::is_finished;
use model::{RunAnswer, RunStop};
use records::{Record, mark_of};

// The lowest task that is unfinished.
pub fn first_unfinished(records: &[Record]) -> Option<usize>
    ensures { result ≡ first_or (keep (λ p. not (finished (markAt (marks_from records.now) p))) (below (length records.now))) Some None }
{
    for p in 0..records.len() {
        if !is_finished(mark_of(records, p)) {
            return Some(p);
        }
    }
    None
}

// Whether every task is finished.
fn all_finished(records: &[Record]) -> bool
    ensures { result ≡ every finished (marks_from records.now) }
{
    first_unfinished(records).is_none()
}

// What a run answers whose budget is spent, after n calls.
pub fn answer_after(records: &[Record], n: u64) -> RunAnswer
    ensures { result ≡ cond (every finished (marks_from records.now)) (Ok (Finished n)) (Ok (Spent n)) }
{
    if all_finished(records) {
        return Ok(RunStop::Finished(n));
    }
    Ok(RunStop::Spent(n))
}
