// For test programs: what the fields of a line of a script say (reference/README.md has the format).
#![tactic(auto)]

use model::{Sizes, TaskRecord};
use record_changes::put_record;
use records::{RECORD, Record};
use script::Fields;
use std::array;
use std::num::f64_from_bits_with_nan;
use worker::{Worker, Workers};

// What a line asks for.
#[derive(Clone, Copy)]
pub enum Command {
    Lend,
    Open,
    Take,
    Column,
    Run,
    Solve,
    Outcome,
}

impl Command {
    // The command that the first byte of a line stands for.
    pub fn from_code(code: u8) -> Option<Command> {
        match code {
            0x10 => Some(Command::Lend),
            0x11 => Some(Command::Open),
            0x12 => Some(Command::Take),
            0x13 => Some(Command::Column),
            0x14 => Some(Command::Run),
            0x15 => Some(Command::Solve),
            0x16 => Some(Command::Outcome),
            _ => None,
        }
    }
}

// ---- the arguments of calls

pub fn argument(fields: &mut Fields<'_>) -> u64 {
    u64::from_be_bytes(fields.bytes())
}

pub fn sizes(fields: &mut Fields<'_>) -> Sizes {
    Sizes {
        tiles: argument(fields) as usize,
        side: argument(fields) as usize,
        workers: argument(fields) as usize,
    }
}

// ---- what is lent

// How many items follow.
pub fn count(fields: &mut Fields<'_>) -> usize {
    u32::from_be_bytes(fields.bytes()) as usize
}

// What a line lends many of.
pub trait Item: Copy {
    fn read(fields: &mut Fields<'_>) -> Self;
}

// A number has the 16 digits of its bits; every NaN is the same.
impl Item for f64 {
    fn read(fields: &mut Fields<'_>) -> f64 {
        f64_from_bits_with_nan(argument(fields))
    }
}

impl Item for u8 {
    fn read(fields: &mut Fields<'_>) -> u8 {
        fields.byte()
    }
}

impl Item for Record {
    fn read(fields: &mut Fields<'_>) -> Record {
        let task = TaskRecord {
            kind: fields.byte(),
            k: fields.byte(),
            i: fields.byte(),
            j: fields.byte(),
            mark: fields.byte(),
            ties: u16::from_be_bytes(fields.bytes()),
            worker: fields.byte(),
            took: u32::from_be_bytes(fields.bytes()),
            ended: u32::from_be_bytes(fields.bytes()),
        };
        let mut records = [[0; RECORD]];
        put_record(&mut records, 0, task);
        records[0]
    }
}

fn worker(fields: &mut Fields<'_>) -> Worker {
    Worker {
        busy: fields.byte() != 0,
        task: u16::from_be_bytes(fields.bytes()),
        column: fields.byte(),
    }
}

// How many workers there are, the run's number, and the slots.
pub fn workers(fields: &mut Fields<'_>) -> Workers {
    Workers {
        count: count(fields),
        number: u32::from_be_bytes(fields.bytes()),
        slots: array::from_fn(|_| worker(fields)),
    }
}
