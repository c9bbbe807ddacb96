// What bench/ and a test of hosts/ call from Rust over task records that are structs: an opening, a take, a column, a run, the outcome and a solve.
// Workers are made here: all idle, or one that holds a task.
#![tactic(auto)]

ghost use Rattle.std.specs.Prelude.{◌≡◌};
ghost use Rattle.model.specs.Refusal.{answer_number, open_call, take_call, column_call, run_call, outcome_call};
ghost use Rattle.model.specs.Solve.{solve_call};
ghost use Rattle.copies.specs.Whole.{whole};
ghost use Rattle.bench_structs.specs.Bench.{idles, one_holding, calls_of, known_tells, outcome_tells};

use model::{
    Answer, CallReply, Outcome, OutcomeAnswer, RunAnswer, RunStop, Sizes, Standing, TaskRecord,
};
use worker::{SLOTS, Worker, Workers};

// The refusal's number: 0 where the call is accepted.
fn number_of(answer: Answer) -> u8
    ensures { result ≡ answer_number answer }
{
    match answer {
        Ok(()) => 0,
        Err(why) => why.rule.number(),
    }
}

fn number_in(reply: CallReply<Answer>) -> u8
    ensures { result ≡ answer_number reply.answer }
{
    let answer = reply.answer;
    number_of(answer)
}

// The calls that a run made.
fn calls_of(answer: RunAnswer) -> u64
    ensures { result ≡ calls_of answer }
{
    match answer {
        Ok(RunStop::Finished(n) | RunStop::Spent(n)) => n,
        Err(_) => 0,
    }
}

fn calls_in(reply: CallReply<RunAnswer>) -> u64
    ensures { result ≡ calls_of reply.answer }
{
    let answer = reply.answer;
    calls_of(answer)
}

fn known_number(outcome: Outcome) -> u8
    ensures { result ≡ known_tells outcome }
{
    match outcome {
        Outcome::Good => 128,
        Outcome::Overflow(_) => 129,
        Outcome::Singular(_) => 130,
    }
}

// What an outcome call answers: 128 good, 129 overflow, 130 singular, 131 unfinished, or the refusal's number.
fn outcome_number(answer: OutcomeAnswer) -> u8
    ensures { result ≡ outcome_tells answer }
{
    match answer {
        Ok(Standing::Known(o)) => known_number(o),
        Ok(Standing::Unfinished(_)) => 131,
        Err(why) => why.rule.number(),
    }
}

// All workers idle, with the run's number.
fn idle_workers(z: Sizes, number: u32) -> Workers
    ensures { result ≡ idles z.workers number }
{
    let h = Worker::idle();
    let slots = [h; SLOTS];
    Workers {
        slots,
        count: z.workers,
        number,
    }
}

// Worker 0 holds task p with column c the next, and all others are idle; with the run's number.
fn one_holding(z: Sizes, number: u32, p: u16, c: u8) -> Workers
    ensures { result ≡ one_holding z.workers number p c }
{
    let h = Worker::idle();
    let mut slots = [h; SLOTS];
    slots[0] = Worker {
        busy: true,
        task: p,
        column: c,
    };
    Workers {
        slots,
        count: z.workers,
        number,
    }
}

// An opening with idle workers: 0, or the refusal's number.
#[unsafe(no_mangle)]
pub extern "C" fn bench_open(
    z: Sizes,
    matrix: &[f64],
    lists: &mut [u8],
    records: &mut [TaskRecord],
    number: u32,
) -> u8
    ensures { (result ≡ answer_number (open_call z (whole matrix.now lists.old records.old (idles z.workers number))).answer)
        × (record { matrix = matrix.now; lists = lists.new } ≡ (open_call z (whole matrix.now lists.old records.old (idles z.workers number))).left.buffers)
        × (records.new ≡ (open_call z (whole matrix.now lists.old records.old (idles z.workers number))).left.records) }
{
    let reply = open_call::open(z, matrix, lists, records, idle_workers(z, number));
    number_in(reply)
}

// Worker w takes task p, all workers idle: 0, or the refusal's number.
#[unsafe(no_mangle)]
pub extern "C" fn bench_take(
    z: Sizes,
    matrix: &[f64],
    lists: &[u8],
    records: &mut [TaskRecord],
    number: u32,
    w: usize,
    p: usize,
) -> u8
    ensures { (result ≡ answer_number (take_call z w p (whole matrix.now lists.now records.old (idles z.workers number))).answer)
        × (records.new ≡ (take_call z w p (whole matrix.now lists.now records.old (idles z.workers number))).left.records) }
{
    let reply = take_call::take(z, matrix, lists, records, idle_workers(z, number), w, p);
    number_in(reply)
}

// The next column, c, of task p, which worker 0 holds: 0, or the refusal's number.
#[unsafe(no_mangle)]
pub extern "C" fn bench_column(
    z: Sizes,
    matrix: &mut [f64],
    lists: &mut [u8],
    records: &mut [TaskRecord],
    number: u32,
    w: usize,
    p: u16,
    c: u8,
) -> u8
    ensures { (result ≡ answer_number (column_call z w (whole matrix.old lists.old records.old (one_holding z.workers number p c))).answer)
        × (record { matrix = matrix.new; lists = lists.new } ≡ (column_call z w (whole matrix.old lists.old records.old (one_holding z.workers number p c))).left.buffers)
        × (records.new ≡ (column_call z w (whole matrix.old lists.old records.old (one_holding z.workers number p c))).left.records) }
{
    let reply = column_call::column(z, matrix, lists, records, one_holding(z, number, p, c), w);
    number_in(reply)
}

// A run from idle workers: the calls made.
#[unsafe(no_mangle)]
pub extern "C" fn bench_run(
    z: Sizes,
    matrix: &mut [f64],
    lists: &mut [u8],
    records: &mut [TaskRecord],
    number: u32,
    budget: u64,
) -> u64
    ensures { (result ≡ calls_of (run_call z budget (whole matrix.old lists.old records.old (idles z.workers number))).answer)
        × (record { matrix = matrix.new; lists = lists.new } ≡ (run_call z budget (whole matrix.old lists.old records.old (idles z.workers number))).left.buffers)
        × (records.new ≡ (run_call z budget (whole matrix.old lists.old records.old (idles z.workers number))).left.records) }
{
    let reply = run_call::run(z, matrix, lists, records, idle_workers(z, number), budget);
    calls_in(reply)
}

// The outcome with idle workers, as a number.
#[unsafe(no_mangle)]
pub extern "C" fn bench_outcome(
    z: Sizes,
    matrix: &[f64],
    lists: &[u8],
    records: &[TaskRecord],
    number: u32,
) -> u8
    ensures { result ≡ outcome_tells (outcome_call z (whole matrix.now lists.now records.now (idles z.workers number))) }
{
    let answer = outcome_call::outcome(z, matrix, lists, records, idle_workers(z, number));
    outcome_number(answer)
}

// A solve with idle workers: 0, or the refusal's number.
#[unsafe(no_mangle)]
pub extern "C" fn bench_solve(
    z: Sizes,
    matrix: &[f64],
    lists: &[u8],
    records: &[TaskRecord],
    number: u32,
    right: &[f64],
    answers: &mut [f64],
) -> u8
    ensures { (result ≡ answer_number (solve_call z (whole matrix.now lists.now records.now (idles z.workers number)) right.now answers.old).answer)
        × (answers.new ≡ (solve_call z (whole matrix.now lists.now records.now (idles z.workers number)) right.now answers.old).left) }
{
    let answer = solve_call::solve(
        z,
        matrix,
        lists,
        records,
        idle_workers(z, number),
        right,
        answers,
    );
    number_of(answer)
}
