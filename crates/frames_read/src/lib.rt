// A text's frames in order: a cursor goes past the lines that are due, each checked, and stops at the first refusal.
#![tactic(auto)]

ghost use Rattle.std.specs.Prelude.{◌≡◌, ℕ, ◌<◌, ◌≤◌, map};
ghost use Rattle.model.specs.Limits.{most_side};
ghost use Rattle.model.specs.Lists.{below, joined};
ghost use Rattle.model.specs.Read.{tile_frames, list_frames};
ghost use Rattle.lines_read.specs.Line.{kind_number};
ghost use Rattle.cursors.specs.Steps.{CursorFits};
ghost use Rattle.frames_read.specs.Follow.{follow, row_frames};

use cursors::{Cursor, Step, check_line};
use lines_read::{Due, Kind};

// The lines of a row of frames: one kind and I, and J from 0 to count - 1.
fn check_row(text: &[u8], c: Cursor, t: usize, kind: Kind, i: usize, count: usize) -> Step
    requires cursor_fits { CursorFits text.now c }
    requires t_le_most_side { t ≤ most_side }
    ensures { result ≡ follow t text.now (row_frames (kind_number kind) count i) c }
{
    let number = kind.number();
    let mut here = c;
    for j in 0..count {
        here = check_line(text, here, t, Due { kind: number, i, j })?;
    }
    Ok(here)
}

// The lines of all rows of frames of one kind, where row i has width(i) of them.
fn check_rows<W: Fn(usize) -> usize>(
    text: &[u8],
    c: Cursor,
    tiles: usize,
    t: usize,
    kind: Kind,
    width: W,
) -> Step
    ghost widths: { ℕ → ℕ }
    requires cursor_fits { CursorFits text.now c }
    requires t_le_most_side { t ≤ most_side }
    requires callable { (i : ℕ) → i < tiles → W.pre width i }
    requires gives { (i n : ℕ) → W.post width i n → n ≡ widths i }
    ensures { result ≡ follow t text.now (joined (map (λ i. row_frames (kind_number kind) (widths i) i) (below tiles))) c }
{
    let mut here = c;
    for i in 0..tiles {
        here = check_row(text, here, t, kind, i, width(i))?;
    }
    Ok(here)
}

// The lines of all tiles, in tile order.
#[tactic(auto, unfolding(model::specs::Read::tile_frames))]
pub fn check_tiles(text: &[u8], c: Cursor, tiles: usize, t: usize) -> Step
    requires cursor_fits { CursorFits text.now c }
    requires t_le_most_side { t ≤ most_side }
    ensures { result ≡ follow t text.now (tile_frames tiles) c }
{
    check_rows(text, c, tiles, t, Kind::Tile, |_| tiles)
}

// The lines of the lists with I ≥ J.
#[tactic(auto, unfolding(model::specs::Read::list_frames))]
pub fn check_lists(text: &[u8], c: Cursor, tiles: usize, t: usize) -> Step
    requires cursor_fits { CursorFits text.now c }
    requires t_le_most_side { t ≤ most_side }
    ensures { result ≡ follow t text.now (list_frames tiles) c }
{
    check_rows(text, c, tiles, t, Kind::List, |i| i + 1)
}
