// Around a column: whether the marks spoil its task, the mark and the ties that its end gives, and what that makes of the worker.
#![tactic(auto)]

ghost use Rattle.std.specs.Prelude.{◌≡◌, ◌&&◌, cond, suc, ◌<◌, eqb};
ghost use Rattle.model.specs.Task.{tasks};
ghost use Rattle.model.specs.Links.{spoils, finished};
ghost use Rattle.model.specs.Buffer.{mark_after, ties_after};
ghost use Rattle.worker.specs.Holding.{idle, holding};
ghost use Rattle.marks.specs.Marks.{Recorded};
ghost use Rattle.records.specs.Records.{marks_from};

use marks::{DONE, FAILED, SPOILED, TAKEN, is_finished};
use model::{ColumnEnd, Sizes};
use records::Record;
use spoiling::is_spoiled;
use worker::Worker;

// Whether task p, called for at column c, is spoiled: that is seen at its first column.
pub fn spoiled_at(z: Sizes, records: &[Record], p: usize, c: usize) -> bool
    requires { Recorded z.tiles records.now p }
    ensures { result ≡ (eqb c 0 && spoils (tasks z.tiles) (marks_from records.now) p) }
{
    c == 0 && is_spoiled(z.tiles, records, p)
}

// The mark that a column's end gives its task.
pub fn mark_after(end: ColumnEnd) -> u8
    ensures { result ≡ mark_after end }
{
    match end {
        ColumnEnd::GoesOn(_) => TAKEN,
        ColumnEnd::Done(_) => DONE,
        ColumnEnd::Failed => FAILED,
        ColumnEnd::Spoiled => SPOILED,
    }
}

// The ties that a column's end adds to its task's sum.
pub fn ties_after(end: ColumnEnd) -> u16
    ensures { result ≡ ties_after end }
{
    match end {
        ColumnEnd::GoesOn(ties) | ColumnEnd::Done(ties) => ties,
        ColumnEnd::Failed | ColumnEnd::Spoiled => 0,
    }
}

// The worker after a column that left its task with this mark.
pub fn moved_on(h: Worker, mark: u8) -> Worker
    requires { h.column < 255 }
    ensures { result ≡ cond (finished mark) idle (holding h.task (suc h.column)) }
{
    if is_finished(mark) {
        return h.release();
    }
    h.advance()
}
