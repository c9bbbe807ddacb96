// The workers of a host: their slots in three arrays, their count, and the run's number. The arrays are three because the
// C interface has them so (busy, task and column of hosts/solumivaf.h).
#![tactic(auto)]

ghost use Rattle.std.specs.Prelude.{◌≡◌};
ghost use Rattle.host_workers.specs.Workers.{slots_in, workers_in, byte_left, bytes_left};

use std::array;
use worker::{SLOTS, Worker, Workers};

// The workers that three arrays hold, `count` of them, with the run's number.
pub fn gather(
    busy: [u8; SLOTS],
    task: [u16; SLOTS],
    column: [u8; SLOTS],
    count: usize,
    number: u32,
) -> Workers
    ensures { result ≡ workers_in busy task column count number }
{
    Workers {
        slots: array::from_fn(|v| Worker {
            busy: busy[v] != 0,
            task: task[v],
            column: column[v],
        }),
        count,
        number,
    }
}

// The byte of a worker that is busy or idle, where `was` stood: the same byte, if it says the same.
#[tactic(auto, unfolding(crate::specs::Workers::byte_left, crate::specs::Workers::says_busy))]
fn byte_left(was: u8, busy: bool) -> u8
    ensures { result ≡ byte_left was busy }
{
    if busy { was.max(1) } else { 0 }
}

// Puts the slots of workers into three arrays. A byte of `busy` that says what it should stays.
pub fn scatter(
    workers: Workers,
    busy: &mut [u8; SLOTS],
    task: &mut [u16; SLOTS],
    column: &mut [u8; SLOTS],
)
    ensures column_after { slots_in busy.new task.new column.new ≡ workers.slots }
    ensures busy_after { busy.new ≡ bytes_left busy.old workers.slots }
{
    *busy = array::from_fn(|v| byte_left(busy[v], workers.slots[v].busy));
    *task = array::from_fn(|v| workers.slots[v].task);
    *column = array::from_fn(|v| workers.slots[v].column);
}
