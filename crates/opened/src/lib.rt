// The records and the workers of a system that was just opened.
#![tactic(auto)]

ghost use Rattle.std.specs.Prelude.{◌≡◌, map, ◌≤◌, replicate};
ghost use Rattle.model.specs.Lengths.{RecordsFit};
ghost use Rattle.model.specs.Limits.{most_workers};
ghost use Rattle.model.specs.Task.{tasks};
ghost use Rattle.model.specs.Calls.{record_of};
ghost use Rattle.worker.specs.Holding.{idle};
ghost use Rattle.records.specs.Records.{records_from, crew, OthersKept};
ghost use Rattle.checks.specs.Checks.{Sized};

use model::Sizes;
use numbering::{first, next};
use record_changes::put_record;
use records::Record;
use task_counts::task_count;
use waiting_records::record_of;
use worker::{Worker, Workers};

// Sets the records to the numbering and waiting.
pub fn number_records(z: Sizes, records: &mut [Record])
    requires { Sized z × RecordsFit z records.old }
    ensures { records_from records.new ≡ map record_of (tasks z.tiles) }
{
    let n = z.tiles as u8;
    let mut a = first();
    for p in 0..task_count(z.tiles) {
        put_record(records, p, record_of(a));
        a = next(n, a);
    }
}

// Sets the workers to idle, and the run's number to 0.
pub fn idle_workers(workers: Workers) -> Workers
    requires { workers.count ≤ most_workers }
    ensures count_value { (crew result.slots result.count ≡ replicate workers.count idle) × (result.number ≡ 0) }
    ensures others_kept { OthersKept workers result }
{
    let mut slots = workers.slots;
    slots[..workers.count].fill(Worker::idle());
    Workers {
        slots,
        number: 0,
        ..workers
    }
}
