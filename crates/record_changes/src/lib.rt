// Changes of task records in a slice that the caller lends, RECORD bytes each.
#![tactic(auto)]

ghost use Rattle.std.specs.Prelude.{◌≡◌, ◌+◌, ◌<◌, length, get_or, set};
ghost use Rattle.model.specs.Calls.{with_take, with_column, changed};
ghost use Rattle.records.specs.Records.{records_from, ties_from};

use marks::{TAKEN, is_finished};
use model::TaskRecord;
use records::{Record, record_at};

// Puts a record in the place of task p's.
pub fn put_record(records: &mut [Record], p: usize, task: TaskRecord)
    requires { p < length records.old }
    ensures records_after { records_from records.new ≡ set (records_from records.old) p task }
    ensures records_len_unchanged { length records.new ≡ length records.old }
{
    let [low, high] = task.ties.to_le_bytes();
    let t = task.took.to_le_bytes();
    let e = task.ended.to_le_bytes();
    records[p] = [
        task.kind,
        task.k,
        task.i,
        task.j,
        task.mark,
        task.worker,
        low,
        high,
        t[0],
        t[1],
        t[2],
        t[3],
        e[0],
        e[1],
        e[2],
        e[3],
    ];
}

// Gives task p the mark of a taken task and the number of the call that took it.
pub fn take_record(records: &mut [Record], p: usize, number: u32)
    requires { p < length records.old }
    ensures records_after { records_from records.new ≡ changed p (with_take number) (records_from records.old) }
    ensures records_len_unchanged { length records.new ≡ length records.old }
{
    let task = record_at(records, p);
    put_record(
        records,
        p,
        TaskRecord {
            mark: TAKEN,
            took: number,
            ..task
        },
    );
}

// Gives task p what a column of worker w leaves, call `number`: its mark, its ties beside those before, and where that ends the task the worker and the number.
pub fn add_column(records: &mut [Record], p: usize, w: u8, number: u32, mark: u8, ties: u16)
    requires { (p < length records.old) × (get_or (ties_from records.old) p 0 + ties < 65536) }
    ensures records_after { records_from records.new ≡ changed p (with_column w number mark ties) (records_from records.old) }
    ensures records_len_unchanged { length records.new ≡ length records.old }
{
    let task = record_at(records, p);
    let mut worker = task.worker;
    let mut ended = task.ended;
    if is_finished(mark) {
        worker = w;
        ended = number;
    }
    put_record(
        records,
        p,
        TaskRecord {
            mark,
            worker,
            ties: task.ties + ties,
            ended,
            ..task
        },
    );
}
