// For test programs: answers as digits, and the digest of everything lent (reference/README.md has the format).
#![tactic(auto)]

use host_answers::Told;
use model::TaskRecord;
use records::{Record, record_at};
use script::{mixed, mixed_bytes, mixed_numbers};
use std::io;
use std::io::Write;
use std::num::f64_to_bits_with_nan;
use worker::{Worker, Workers};

// The lowest N hexadecimal digits of v, by hand: with a formatter a line of many numbers takes twice as long.
fn digits<const N: usize>(v: u64) -> [u8; N] {
    let mut rest = v;
    let mut text = [0; N];
    for b in text.iter_mut().rev() {
        let d = (rest % 16) as u8;
        *b = if d < 10 { b'0' + d } else { b'A' - 10 + d };
        rest /= 16;
    }
    text
}

// Writes what a call tells.
pub fn write_told(out: &mut impl Write, told: Told) -> io::Result<()> {
    out.write_all(&digits::<2>(u64::from(told.number)))?;
    out.write_all(&digits::<16>(told.place as u64))?;
    out.write_all(&digits::<2>(u64::from(told.kind)))?;
    out.write_all(&digits::<16>(told.count))
}

// Writes the bits of numbers; every NaN has the same.
pub fn write_numbers(out: &mut impl Write, m: &[f64]) -> io::Result<()> {
    for x in m {
        out.write_all(&digits::<16>(f64_to_bits_with_nan(*x)))?;
    }
    Ok(())
}

// ---- the digest

// Field by field: a fold over an array of them takes more than twice the instructions.
fn mixed_record(h: u64, task: TaskRecord) -> u64 {
    let a = mixed(mixed(h, u64::from(task.kind)), u64::from(task.k));
    let b = mixed(mixed(a, u64::from(task.i)), u64::from(task.j));
    let c = mixed(mixed(b, u64::from(task.mark)), u64::from(task.ties));
    let d = mixed(mixed(c, u64::from(task.worker)), u64::from(task.took));
    mixed(d, u64::from(task.ended))
}

fn mixed_records(h: u64, records: &[Record]) -> u64 {
    (0..records.len()).fold(mixed(h, records.len() as u64), |r, k| {
        mixed_record(r, record_at(records, k))
    })
}

fn mixed_worker(h: u64, w: Worker) -> u64 {
    let a = mixed(mixed(h, u64::from(w.busy)), u64::from(w.task));
    mixed(a, u64::from(w.column))
}

fn mixed_workers(h: u64, workers: Workers) -> u64 {
    workers.slots.iter().fold(
        mixed(mixed(h, workers.count as u64), u64::from(workers.number)),
        |r, w| mixed_worker(r, *w),
    )
}

// Ends an answer with the digest of everything lent.
pub fn write_digest(
    out: &mut impl Write,
    matrix: &[f64],
    lists: &[u8],
    records: &[Record],
    workers: Workers,
) -> io::Result<()> {
    let h = mixed_records(mixed_bytes(mixed_numbers(1, matrix), lists), records);
    out.write_all(&digits::<16>(mixed_workers(h, workers)))?;
    out.write_all(b"\n")
}
