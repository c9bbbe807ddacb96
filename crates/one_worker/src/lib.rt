// One worker's whole run of a system, from its opening to its outcome.
#![tactic(auto)]

ghost use Rattle.std.specs.Prelude.{◌≡◌, map};
ghost use Rattle.model.specs.Plan.{plan};
ghost use Rattle.model.specs.Calls.{without_calls};
ghost use Rattle.records.specs.Records.{records_from};
ghost use Rattle.one_worker.specs.Alone.{Lendable, alone, published};

use failures::outcome_of;
use model::{Outcome, Sizes};
use opening::open;
use records::Record;
use runs::run;
use task_counts::task_count;
use worker::{SLOTS, Worker, Workers};

// One worker, for an opening.
fn one_idle() -> Workers
    ensures { result.count ≡ 1 }
{
    let idle = Worker::idle();
    let slots = [idle; SLOTS];
    Workers {
        slots,
        count: 1,
        number: 0,
    }
}

// Opens a system of finite numbers and runs it with one worker to its end. Lists and records may hold anything before. What is left is also what
// the published loops leave, with their marks and tie sums in the records, which tell calls besides.
pub fn run_alone(
    tiles: usize,
    side: usize,
    matrix: &mut [f64],
    lists: &mut [u8],
    records: &mut [Record],
) -> Outcome
    requires { Lendable tiles side matrix.old lists.old records.old }
    ensures result_after { record {
      buffers = record { matrix = matrix.new; lists = lists.new };
      records = records_from records.new;
      outcome = result;
    } ≡ alone (plan tiles side) matrix.old }
    ensures result_after_2 { record {
      buffers = record { matrix = matrix.new; lists = lists.new };
      records = map without_calls (records_from records.new);
      outcome = result;
    } ≡ published (plan tiles side) matrix.old }
{
    let z = Sizes {
        tiles,
        side,
        workers: 1,
    };
    let opened = open(z, matrix, lists, records, one_idle());
    let workers = opened.workers;
    let budget = task_count(tiles) * (side + 1);
    run(z, matrix, lists, records, workers, budget as u64);
    outcome_of(z, matrix, records)
}
