// The exchange that a list entry asks for, T-3's and T-4's, on two blocks of one slice, given by where they start.
// A tile is a block of width t, a right side one of width 1.
#![tactic(auto)]

ghost use Rattle.std.specs.Prelude.{◌≡◌, ◌*◌, ◌<◌, ◌≤◌};
ghost use Rattle.column_laws.specs.Steps.{upper_at, lower_at, with_two};
ghost use Rattle.column_laws.specs.Room.{TwoBlocks};

use exchanges::exchange;

// The exchange that list entry e asks for, from column f on: none for 0, and row c of the upper block with row r of the lower for r + 1.
pub fn exchange_entry(
    m: &mut [f64],
    t: usize,
    w: usize,
    f: usize,
    u: usize,
    d: usize,
    c: usize,
    e: usize,
)
    requires two_blocks { TwoBlocks t w u d m.old }
    requires f_le_w { (f ≤ w) × (c < t) × (e ≤ t) }
    ensures { m.new ≡ with_two (t * w) u d (upper_at t w f c e u d m.old) (lower_at t w f c e u d m.old) m.old }
{
    if e == 0 {
        return;
    }
    exchange(m, u + (c * w + f), d + ((e - 1) * w + f), w - f);
}
