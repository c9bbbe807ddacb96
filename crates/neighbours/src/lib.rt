// The marks of the tasks that are linked to a task: at most three, and each stands at a number that follows from the task's own. Inside, a task
// is a triple: T-1(k) is (k,k,k), T-2(k,j) is (k,k,j), T-3(k,i) is (k,i,k), T-4(k,i,j) is (k,i,j).
#![tactic(auto)]

ghost use Rattle.std.specs.Prelude.{◌≡◌};
ghost use Rattle.links.specs.Closed.{key, back_mark, above_mark, left_mark};
ghost use Rattle.records.specs.Records.{marks_from};
ghost use Rattle.marks.specs.Marks.{Recorded};
ghost use Rattle.neighbours.specs.Linked.{Placed, link_marks};

use marks::DONE;
use records::{Record, mark_of};

// The marks of the task one stage back at the same tile, of the one above in its column, and of the first of its row.
#[derive(Clone, Copy)]
pub struct LinkMarks {
    pub back: u8,
    pub above: u8,
    pub left: u8,
}

// The mark of the task at the same tile one stage back: done where there is none.
fn back_mark(n: usize, records: &[Record], p: usize, k: usize, i: usize, j: usize) -> u8
    requires { Placed n records.now p (key k i j) }
    ensures { result ≡ back_mark n (marks_from records.now) (key k i j) }
{
    if k == 0 {
        return DONE;
    }
    let m = n - k;
    mark_of(records, p + 1 + i - (n + m * m))
}

// The mark of the task above: done in the top row.
fn above_mark(n: usize, records: &[Record], p: usize, k: usize, i: usize, j: usize) -> u8
    requires { Placed n records.now p (key k i j) }
    ensures { result ≡ above_mark n (marks_from records.now) (key k i j) }
{
    if i == k {
        return DONE;
    }
    mark_of(records, p - (n - k))
}

// The mark of the first task of the row: done where this is it.
fn left_mark(n: usize, records: &[Record], p: usize, k: usize, i: usize, j: usize) -> u8
    requires { Placed n records.now p (key k i j) }
    ensures { result ≡ left_mark n (marks_from records.now) (key k i j) }
{
    if j == k {
        return DONE;
    }
    mark_of(records, p - (j - k))
}

// The marks of the tasks linked to task p: done where there is none.
pub fn link_marks(n: usize, records: &[Record], p: usize) -> LinkMarks
    requires { Recorded n records.now p }
    ensures { result ≡ link_marks n (marks_from records.now) p }
{
    let r = records::record_at(records, p);
    let k = r.k as usize;
    // An index that is unused is 0 in the record, and k in the triple.
    let i = r.k.max(r.i) as usize;
    let j = r.k.max(r.j) as usize;
    let back = back_mark(n, records, p, k, i, j);
    let above = above_mark(n, records, p, k, i, j);
    let left = left_mark(n, records, p, k, i, j);
    LinkMarks { back, above, left }
}
