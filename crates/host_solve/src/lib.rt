// The outcome and a solve, for hosts. hosts/solumivaf.h declares them.
#![tactic(auto)]

ghost use Rattle.std.specs.Prelude.{◌≡◌};
ghost use Rattle.model.specs.Refusal.{outcome_call};
ghost use Rattle.model.specs.Solve.{solve_call};
ghost use Rattle.model.specs.Plan.{sizes};
ghost use Rattle.host_answers.specs.Answers.{outcome_told};
ghost use Rattle.host_calls.specs.Hosted.{hosted, lent_in, Solved};

use host_answers::{Told, tell, tell_outcome};
use host_workers::gather;
use model::Sizes;
use records::Record;
use worker::SLOTS;

// The outcome: kind 0 good, 1 overflow at a task, 2 singular at a row, 3 unfinished at a task.
#[unsafe(no_mangle)]
pub extern "C" fn solumivaf_outcome(
    tiles: usize,
    side: usize,
    workers: usize,
    matrix: &[f64],
    lists: &[u8],
    records: &[Record],
    busy: &[u8; SLOTS],
    task: &[u16; SLOTS],
    column: &[u8; SLOTS],
    count: usize,
    number: u32,
) -> Told
    ensures { result ≡ outcome_told (outcome_call (sizes tiles side workers) (lent_in (hosted matrix.now lists.now records.now busy.now task.now column.now count number))) }
{
    let z = Sizes {
        tiles,
        side,
        workers,
    };
    let given = gather(*busy, *task, *column, count, number);
    let answer = outcomes::outcome(z, matrix, lists, records, given);
    tell_outcome(answer)
}

// Solves a factored system for one right side.
#[unsafe(no_mangle)]
pub extern "C" fn solumivaf_solve(
    tiles: usize,
    side: usize,
    workers: usize,
    matrix: &[f64],
    lists: &[u8],
    records: &[Record],
    busy: &[u8; SLOTS],
    task: &[u16; SLOTS],
    column: &[u8; SLOTS],
    count: usize,
    number: u32,
    right: &[f64],
    answers: &mut [f64],
) -> Told
    ensures { Solved (solve_call (sizes tiles side workers) (lent_in (hosted matrix.now lists.now records.now busy.now task.now column.now count number)) right.now answers.old)
        answers.new result }
{
    let z = Sizes {
        tiles,
        side,
        workers,
    };
    let given = gather(*busy, *task, *column, count, number);
    let answer = solving::solve(z, matrix, lists, records, given, right, answers);
    tell(answer)
}
