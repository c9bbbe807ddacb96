// The whole run, for hosts. hosts/solumivaf.h declares it.
#![tactic(auto)]

ghost use Rattle.model.specs.Refusal.{run_call};
ghost use Rattle.model.specs.Plan.{sizes};
ghost use Rattle.host_calls.specs.Hosted.{hosted, Ran};

use host_answers::{Told, tell_run};
use host_workers::{gather, scatter};
use model::Sizes;
use records::Record;
use worker::SLOTS;

// Runs a system for at most `budget` calls: kind 1 finished, 2 spent, and the count of the calls made.
#[unsafe(no_mangle)]
pub extern "C" fn solumivaf_run(
    tiles: usize,
    side: usize,
    workers: usize,
    matrix: &mut [f64],
    lists: &mut [u8],
    records: &mut [Record],
    busy: &mut [u8; SLOTS],
    task: &mut [u16; SLOTS],
    column: &mut [u8; SLOTS],
    count: usize,
    number: &mut u32,
    budget: u64,
) -> Told
    ensures { Ran (run_call (sizes tiles side workers) budget)
        (hosted matrix.old lists.old records.old busy.old task.old column.old count number.old)
        (hosted matrix.new lists.new records.new busy.new task.new column.new count number.new) result }
{
    let z = Sizes {
        tiles,
        side,
        workers,
    };
    let given = gather(*busy, *task, *column, count, *number);
    let reply = runs::run(z, matrix, lists, records, given, budget);
    let left = reply.workers;
    scatter(left, busy, task, column);
    *number = left.number;
    let answer = reply.answer;
    tell_run(answer)
}
