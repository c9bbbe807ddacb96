// Refusal 4 but for elements: records and the run's number, what the workers hold, and list entries.
#![tactic(auto)]

ghost use Rattle.std.specs.Prelude.{◌≡◌, ◌&&◌, ◌||◌, not, List, eqb, leb, ltb, Float, length, ◌+◌, ◌-◌, ◌<◌};
ghost use Rattle.model.specs.Lengths.{ListsFit, RecordsFit};
ghost use Rattle.model.specs.Lists.{below, some};
ghost use Rattle.model.specs.Task.{tasks};
ghost use Rattle.model.specs.Plan.{plan_of};
ghost use Rattle.model.specs.Refusal.{bad_record, bad_hold, bad_ties, bad_calls, bad_number, damaged as isDamaged};
ghost use Rattle.records.specs.Records.{lent};
ghost use Rattle.model.specs.declared.TaskRecord.{TaskRecord as SomeRecord};
ghost use Rattle.damage.specs.Named.{name_of, name_at, Bytes};
ghost use Rattle.checks.specs.Checks.{Sized, numbered};

use entries::bad_entries;
use holds::{free_limits, held_limits};
use marks::{SPOILED, TAKEN};
use model::{Sizes, TaskRecord};
use numbering::{Triple, first, next};
use records::{Record, record_at};
use task_counts::task_count;
use waiting_records::record_of;
use worker::Slots;
use workers::bad_workers;

// Kind, k, i and j of a record as one number.
fn named(task: TaskRecord) -> u32
    ensures { (result ≡ name_of task) × (task.kind < 256) × (task.k < 256) × (task.i < 256) × (task.j < 256) }
{
    u32::from_le_bytes([task.kind, task.k, task.i, task.j])
}

// That number of the task with the triple a, where `before` is the number of the task before it: within a row only j grows.
fn named_after(a: Triple, before: u32) -> u32
    requires { a.k + 1 < a.j → before ≡ name_at a.k a.i (a.j - 1) }
    ensures { result ≡ name_at a.k a.i a.j }
{
    if a.k as u32 + 1 < a.j as u32 {
        return before + 16777216;
    }
    named(record_of(a))
}

// Whether a record is not that of the task with this number, or its mark exceeds 4.
fn differs(found: TaskRecord, due: u32) -> bool
    ensures { (task : SomeRecord) → Bytes task → due ≡ name_of task
        → result ≡ not (eqb found.kind task.kind && eqb found.k task.k && eqb found.i task.i && eqb found.j task.j && leb found.mark 4) }
{
    !((named(found) == due) & (found.mark <= SPOILED))
}

// Whether a call number of a record is above the run's, or its worker is none of `workers` many.
fn bad_calls(found: TaskRecord, number: u32, workers: usize) -> bool
    ensures { result ≡ not (leb found.took number && leb found.ended number && ltb found.worker workers) }
{
    !((found.took <= number) & (found.ended <= number) & ((found.worker as usize) < workers))
}

// Whether some record is not that of its place, has no known mark, or tells calls that were not made or a worker that there is not; a taken task is held by
// none or by several; a tie sum is above its limit; or the run's number is. At most one more taken task has its workers counted than there are workers.
fn bad_records(z: Sizes, records: &[Record], workers: Slots, number: u32) -> bool
    requires { Sized z × RecordsFit z records.now }
    ensures { result ≡ (some (bad_record (plan_of z) (numbered records.now workers z.workers number)) (below (length (tasks z.tiles)))
        || some (bad_hold (plan_of z) (numbered records.now workers z.workers number)) (below (length (tasks z.tiles)))
        || some (bad_ties (plan_of z) (numbered records.now workers z.workers number)) (below (length (tasks z.tiles)))
        || some (bad_calls (plan_of z) (numbered records.now workers z.workers number)) (below (length (tasks z.tiles)))
        || bad_number (plan_of z) (numbered records.now workers z.workers number)) }
{
    let count = task_count(z.tiles);
    let mut a = first();
    let mut calls = 0;
    let mut due = 0;
    for p in 0..count {
        due = named_after(a, due);
        let found = record_at(records, p);
        if differs(found, due) | bad_calls(found, number, z.workers) {
            return true;
        }
        let taken = found.mark == TAKEN;
        let most = if taken {
            let Ok(held) = held_limits(z, workers, p) else {
                return true;
            };
            held
        } else {
            free_limits(z, found.mark)
        };
        if found.ties != 0 && most.ties < found.ties as usize {
            return true;
        }
        calls += most.calls;
        a = next(z.tiles as u8, a);
    }
    calls < number as usize
}

// Whether what is lent is damaged, by refusal 4 but for elements.
pub fn damaged(z: Sizes, lists: &[u8], records: &[Record], workers: Slots, number: u32) -> bool
    requires { Sized z × ListsFit z lists.now × RecordsFit z records.now }
    ensures { (matrix : List Float) → result ≡ isDamaged (plan_of z) (lent matrix lists.now records.now workers z.workers number) }
{
    if bad_records(z, records, workers, number) {
        return true;
    }
    if bad_workers(z, records, workers) {
        return true;
    }
    bad_entries(z, lists)
}
