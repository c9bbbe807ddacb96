// For test programs: what a line of a script lends (reference/README.md has the format).
#![tactic(auto)]

use play_fields::{Item, count, workers};
use records::Record;
use script::Fields;
use worker::{SLOTS, Worker, Workers};

// Room for what lines lend. The right side and the answers are lent to one solve.
#[derive(Drop)]
pub struct Rooms<'a> {
    pub matrix: &'a mut [f64],
    pub lists: &'a mut [u8],
    pub records: &'a mut [Record],
    pub right: &'a mut [f64],
    pub answers: &'a mut [f64],
}

// Reads a count and that many items to the front of a room, and gives that front: no more than there is room for.
pub fn lend_items<'a, T: Item>(fields: &mut Fields<'_>, room: &'a mut [T]) -> &'a mut [T] {
    let n = count(fields).min(room.len());
    let lent = &mut room[..n];
    for item in lent.iter_mut() {
        *item = T::read(fields);
    }
    lent
}

// How much of each room is lent to the calls that follow, and their workers.
#[derive(Clone, Copy)]
pub struct Lent {
    pub matrix: usize,
    pub lists: usize,
    pub records: usize,
    pub workers: Workers,
}

impl Lent {
    pub fn nothing() -> Lent {
        Lent {
            matrix: 0,
            lists: 0,
            records: 0,
            workers: Workers {
                slots: [Worker::idle(); SLOTS],
                count: 0,
                number: 0,
            },
        }
    }

    // What a line lends in place of all before.
    pub fn read(fields: &mut Fields<'_>, rooms: &mut Rooms<'_>) -> Lent {
        Lent {
            matrix: lend_items(fields, rooms.matrix).len(),
            lists: lend_items(fields, rooms.lists).len(),
            records: lend_items(fields, rooms.records).len(),
            workers: workers(fields),
        }
    }
}
