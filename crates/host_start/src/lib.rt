// The interface's version, the opening and a take, for hosts. hosts/solumivaf.h declares them.
#![tactic(auto)]

ghost use Rattle.std.specs.Prelude.{◌≡◌};
ghost use Rattle.model.specs.Refusal.{open_call, take_call};
ghost use Rattle.model.specs.Plan.{sizes};
ghost use Rattle.host_answers.specs.Answers.{interface_version};
ghost use Rattle.host_calls.specs.Hosted.{hosted, Called};

use host_answers::{Told, tell};
use host_workers::{gather, scatter};
use model::Sizes;
use records::Record;
use worker::SLOTS;

const VERSION: usize = 5;

// The version of the interface, as the header has it.
#[unsafe(no_mangle)]
pub extern "C" fn solumivaf_version() -> usize
    ensures { result ≡ interface_version }
{
    VERSION
}

// Opens a system.
#[unsafe(no_mangle)]
pub extern "C" fn solumivaf_open(
    tiles: usize,
    side: usize,
    workers: usize,
    matrix: &[f64],
    lists: &mut [u8],
    records: &mut [Record],
    busy: &mut [u8; SLOTS],
    task: &mut [u16; SLOTS],
    column: &mut [u8; SLOTS],
    count: usize,
    number: &mut u32,
) -> Told
    ensures { Called (open_call (sizes tiles side workers))
        (hosted matrix.now lists.old records.old busy.old task.old column.old count number.old)
        (hosted matrix.now lists.new records.new busy.new task.new column.new count number.new) result }
{
    let z = Sizes {
        tiles,
        side,
        workers,
    };
    let given = gather(*busy, *task, *column, count, *number);
    let reply = opening::open(z, matrix, lists, records, given);
    let left = reply.workers;
    scatter(left, busy, task, column);
    *number = left.number;
    let answer = reply.answer;
    tell(answer)
}

// Worker w takes task p.
#[unsafe(no_mangle)]
pub extern "C" fn solumivaf_take(
    tiles: usize,
    side: usize,
    workers: usize,
    matrix: &[f64],
    lists: &[u8],
    records: &mut [Record],
    busy: &mut [u8; SLOTS],
    task: &mut [u16; SLOTS],
    column: &mut [u8; SLOTS],
    count: usize,
    number: &mut u32,
    w: usize,
    p: usize,
) -> Told
    ensures { Called (take_call (sizes tiles side workers) w p)
        (hosted matrix.now lists.now records.old busy.old task.old column.old count number.old)
        (hosted matrix.now lists.now records.new busy.new task.new column.new count number.new) result }
{
    let z = Sizes {
        tiles,
        side,
        workers,
    };
    let given = gather(*busy, *task, *column, count, *number);
    let reply = taking::take(z, matrix, lists, records, given, w, p);
    let left = reply.workers;
    scatter(left, busy, task, column);
    *number = left.number;
    let answer = reply.answer;
    tell(answer)
}
