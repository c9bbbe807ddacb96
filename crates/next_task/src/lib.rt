// The task that is next in a run: the lowest ready one, where the search for it begins, and how a worker takes it.
#![tactic(auto)]

ghost use Rattle.std.specs.Prelude.{◌≡◌, cond, suc, min, ◌<◌, length};
ghost use Rattle.worker.specs.Holding.{holding};
ghost use Rattle.model.specs.Calls.{with_take, changed};
ghost use Rattle.records.specs.Records.{records_from};
ghost use Rattle.marks.specs.Marks.{Recorded};
ghost use Rattle.next_task.specs.NextTask.{NoneBelow, LowestReady, NoneBetween};

use marks::is_finished;
use readiness::is_ready;
use record_changes::take_record;
use records::{Record, record_at};
use worker::Worker;

// The next task after p that may be ready: while the first task of a row hasn't finished, no other of the row is. The first, T-1 or T-3, has no j.
fn candidate_after(n: usize, records: &[Record], p: usize) -> usize
    requires { Recorded n records.now p }
    ensures { NoneBetween n records.now p result }
{
    let r = record_at(records, p);
    if r.j == 0 && !is_finished(r.mark) {
        return p + (n - r.k as usize);
    }
    p + 1
}

// The lowest ready task, where none below `from` is ready: the number of tasks where there is none.
pub fn lowest_ready(n: usize, records: &[Record], from: usize) -> usize
    requires { NoneBelow n records.now from }
    ensures { LowestReady n records.now result }
{
    let mut p = from;
    // No `for`: how far the next candidate is differs from task to task.
    while p < records.len() {
        if is_ready(n, records, p) {
            return p;
        }
        p = candidate_after(n, records, p);
    }
    p
}

// The worker h takes task p, by call `number`.
pub fn take_task(records: &mut [Record], h: Worker, p: usize, number: u32) -> Worker
    requires { (p < length records.old) × (p < 65536) }
    ensures value { result ≡ holding p 0 }
    ensures records_after { records_from records.new ≡ changed p (with_take number) (records_from records.old) }
    ensures records_len_unchanged { length records.new ≡ length records.old }
{
    take_record(records, p, number);
    h.take(p as u16)
}

// Where the search for a ready task begins once task p was worked at: p's end may have made a task above it ready.
pub fn search_start(from: usize, busy: bool, p: usize) -> usize
    requires { p < 65536 }
    ensures { result ≡ cond busy from (min from (suc p)) }
{
    if busy { from } else { from.min(p + 1) }
}
