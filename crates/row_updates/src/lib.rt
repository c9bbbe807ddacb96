// The update of rows of one slice by multipliers and another row. Four numbers are computed, stored and tested together, which compilers make
// packed instructions of; those that are over come first, one by one.
#![tactic(auto)]

ghost use Rattle.std.specs.Prelude.{◌≡◌, true, ◌⊎◌, ◌+◌, ◌*◌, ◌≤◌, ◌<◌, length, get_or};
ghost use Rattle.std.specs.Float.{nan};
ghost use Rattle.model.specs.Limits.{most_side};
ghost use Rattle.model.specs.Lists.{part};
ghost use Rattle.model.specs.Num.{update as updated};
ghost use Rattle.model.specs.Tile.{all_finite};
ghost use Rattle.row_updates.specs.Updates.{row_number, column_number, NumbersStored, RowUpdated, RowsUpdated};

use numbers::{is_finite, update};

// The N numbers from p on, each updated by a multiplier and another number. N is known when this is compiled, and then no loop is left of it.
fn update_group<const N: usize>(m: &mut [f64], p: usize, by: [f64; N], upper: [f64; N]) -> bool
    requires { (p + N ≤ length m.old) × (length m.old ≤ 65536) }
    ensures { NumbersStored N p (λ k. updated (get_or m.old (p + k) nan) (get_or by.entry k nan) (get_or upper.entry k nan)) m.old m.new result }
{
    let mut good = true;
    for k in 0..N {
        let v = update(m[p + k], by[k], upper[k]);
        m[p + k] = v;
        good &= is_finite(v);
    }
    good
}

// One number of a row, at p, updated by the multiplier `by` and the number at y.
pub fn row_one(m: &mut [f64], p: usize, y: usize, by: f64) -> bool
    requires { (p < length m.old) × (y < length m.old) × (length m.old ≤ 65536) }
    ensures { NumbersStored 1 p (row_number p y by m.old) m.old m.new result }
{
    let upper = [m[y]];
    update_group(m, p, [by], upper)
}

// Four numbers of a row, from p on, updated by the multiplier `by` and the four from y on.
pub fn row_four(m: &mut [f64], p: usize, y: usize, by: f64) -> bool
    requires { (p + 4 ≤ length m.old) × (y + 4 ≤ length m.old) × (length m.old ≤ 65536) }
    ensures { NumbersStored 4 p (row_number p y by m.old) m.old m.new result }
{
    let upper = [m[y], m[y + 1], m[y + 2], m[y + 3]];
    update_group(m, p, [by; 4], upper)
}

// Updates columns f to w - 1 of the row that starts at `at`, by the multiplier `by` and the row at top. False where a computed number isn't finite, and
// the row's update ends there.
#[inline(always)]
pub fn update_row(m: &mut [f64], at: usize, top: usize, w: usize, f: usize, by: f64) -> bool
    requires f_le_w { (f ≤ w) × (at + w ≤ length m.old) × (top + w ≤ length m.old) × (length m.old ≤ 65536) }
    requires apart { (top + w ≤ at) ⊎ (at + w ≤ top) }
    ensures { RowUpdated w f at top by m.old m.new result }
{
    let fours = w - (w - f) / 4 * 4;
    // Counted by hand, since `for` is slower (on an Intel Xeon): with both loops so, LLVM makes one loop over rows with fours and one without, and a column
    // of T-4 takes 1.3 times as long at t = 16; with the second alone, parts of rows take up to 1.04 times as long.
    let mut q = f;
    while q < fours {
        if !row_one(m, at + q, top + q, by) {
            return false;
        }
        q += 1;
    }
    while q < w {
        if !row_four(m, at + q, top + q, by) {
            return false;
        }
        q += 4;
    }
    true
}

// Updates columns f to w - 1 of the rows of width w from start on by the row at top. The multiplier of row r stands at first + r·w, and no row
// before it changes it. False where a computed number isn't finite.
pub fn update_rows(
    m: &mut [f64],
    start: usize,
    top: usize,
    w: usize,
    f: usize,
    rows: usize,
    first: usize,
) -> bool
    requires w_le_most_side { (w ≤ most_side) × (f ≤ w) × (rows ≤ most_side) × (start + rows * w ≤ length m.old) × (top + w ≤ length m.old) × (length m.old ≤ 65536) }
    requires fact { (top + w ≤ start) ⊎ (start + rows * w ≤ top) }
    requires w_in_bounds { (first + rows * w < length m.old + w) × ((first + rows * w < start + w) ⊎ (start ≤ first)) }
    requires m_value { all_finite (part start (rows * w) m.old) ≡ true }
    ensures { RowsUpdated rows w f start (λ i. get_or m.old (first + i * w) nan) (λ q. get_or m.old (top + q) nan) m.old m.new result }
{
    for r in 0..rows {
        let by = m[first + r * w];
        if by == 0.0 {
            continue;
        }
        if !update_row(m, start + r * w, top, w, f, by) {
            return false;
        }
    }
    true
}

// One number of a column, at p, updated by the multiplier at q in l and the number `upper`.
fn column_one(y: &mut [f64], p: usize, l: &[f64], q: usize, upper: f64) -> bool
    requires { (p < length y.old) × (length y.old ≤ 65536) × (q < length l.now) × (length l.now ≤ 65536) }
    ensures { NumbersStored 1 p (column_number p q 0 upper l.now y.old) y.old y.new result }
{
    update_group(y, p, [l[q]], [upper])
}

// Four numbers of a column, from p on, updated by the four multipliers from q on in l, stride apart, and the number `upper`.
fn column_four(y: &mut [f64], p: usize, l: &[f64], q: usize, stride: usize, upper: f64) -> bool
    requires { (p + 4 ≤ length y.old) × (length y.old ≤ 65536) × (q + 3 * stride < length l.now) × (length l.now ≤ 65536) }
    ensures { NumbersStored 4 p (column_number p q stride upper l.now y.old) y.old y.new result }
{
    let by = [l[q], l[q + stride], l[q + 2 * stride], l[q + 3 * stride]];
    update_group(y, p, by, [upper; 4])
}

// Updates rows of width 1, from start on in y, by the number at top. The multiplier of row r stands in l, at first + r·stride. Where there are
// fewer than eight rows, groups of four are no faster. False where a computed number isn't finite.
pub fn update_column(
    y: &mut [f64],
    start: usize,
    top: usize,
    rows: usize,
    l: &[f64],
    first: usize,
    stride: usize,
) -> bool
    requires rows_le_most_side { (rows ≤ most_side) × (start + rows * 1 ≤ length y.old) × (top + 1 ≤ length y.old) × (length y.old ≤ 65536) }
    requires fact { (top + 1 ≤ start) ⊎ (start + rows * 1 ≤ top) }
    requires stride_le_most_side { (stride ≤ most_side) × (first + rows * stride < length l.now + stride) × (length l.now ≤ 65536) }
    requires y_value { all_finite (part start (rows * 1) y.old) ≡ true }
    ensures { RowsUpdated rows 1 0 start (λ i. get_or l.now (first + i * stride) nan) (λ q. get_or y.old (top + q) nan) y.old y.new result }
{
    let upper = y[top];
    let ones = if rows < 8 { rows } else { rows % 4 };
    for r in 0..ones {
        if !column_one(y, start + r, l, first + r * stride, upper) {
            return false;
        }
    }
    for r in (ones..rows).step_by(4) {
        if !column_four(y, start + r, l, first + r * stride, stride, upper) {
            return false;
        }
    }
    true
}
