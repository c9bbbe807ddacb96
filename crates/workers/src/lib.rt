// Refusal 4's test of what each worker holds.
#![tactic(auto)]

ghost use Rattle.std.specs.Prelude.{◌≡◌};
ghost use Rattle.model.specs.Lengths.{RecordsFit};
ghost use Rattle.model.specs.Lists.{some};
ghost use Rattle.model.specs.Plan.{plan_of};
ghost use Rattle.model.specs.Refusal.{bad_worker as badWorkerIn};
ghost use Rattle.records.specs.Records.{crew};
ghost use Rattle.checks.specs.Checks.{Sized, records_alone};

use marks::TAKEN;
use model::Sizes;
use records::{Record, mark_of};
use task_counts::task_count;
use worker::{Slots, Worker};

// Whether a busy worker is at odds with the records: no such task, another mark than 1, or no such column.
fn bad_worker(z: Sizes, records: &[Record], h: Worker) -> bool
    requires { Sized z × RecordsFit z records.now }
    ensures { result ≡ badWorkerIn (plan_of z) (records_alone records.now) h }
{
    if !h.busy {
        return false;
    }
    let p = h.task as usize;
    if task_count(z.tiles) <= p {
        return true;
    }
    if mark_of(records, p) != TAKEN {
        return true;
    }
    z.side <= h.column as usize
}

// Whether a worker's hold is bad.
pub fn bad_workers(z: Sizes, records: &[Record], workers: Slots) -> bool
    requires { Sized z × RecordsFit z records.now }
    ensures { result ≡ some (badWorkerIn (plan_of z) (records_alone records.now)) (crew workers z.workers) }
{
    workers[..z.workers]
        .iter()
        .any(|h| bad_worker(z, records, *h))
}
