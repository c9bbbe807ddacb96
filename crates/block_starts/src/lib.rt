// What T-2's columns find in a block of one slice, given by where it starts: before column 0 the exchanges of a row list are made.
// A tile is a block of width t, a right side one of width 1.
#![tactic(auto)]

ghost use Rattle.std.specs.Prelude.{◌≡◌, ℕ, ◌+◌, ◌*◌, ◌<◌, ◌≤◌, length, get_or};
ghost use Rattle.model.specs.Lists.{part, with_part};
ghost use Rattle.model.specs.Column.{permuted, apply_start};
ghost use Rattle.column_laws.specs.Room.{Block};

use exchanges::exchange;

// Makes all exchanges of the list that starts at p, in order, in the block at a.
fn permute(m: &mut [f64], lists: &[u8], t: usize, w: usize, a: usize, p: usize)
    requires block { Block t w a m.old }
    requires t_in_bounds { (p + t ≤ length lists.now) × (length lists.now ≤ 65536) × ((x : ℕ) → x < t → get_or lists.now (p + x) 0 < t) }
    ensures { m.new ≡ with_part a (t * w) (permuted t w (part p t lists.now) (part a (t * w) m.old)) m.old }
{
    for c in 0..t {
        let y = usize::from(lists[p + c]);
        exchange(m, a + c * w, a + y * w, w);
    }
}

// What column c finds in the block at a: before column 0 the exchanges of the list are made.
pub fn start_block(m: &mut [f64], lists: &[u8], t: usize, w: usize, a: usize, p: usize, c: usize)
    requires block { Block t w a m.old }
    requires t_in_bounds { (p + t ≤ length lists.now) × (length lists.now ≤ 65536) × ((x : ℕ) → x < t → get_or lists.now (p + x) 0 < t) }
    ensures { m.new ≡ with_part a (t * w) (apply_start t w c (part p t lists.now) (part a (t * w) m.old)) m.old }
{
    if c != 0 {
        return;
    }
    permute(m, lists, t, w, a, p);
}
