// Checking the lines of a result file after its accepted header.
#![tactic(auto)]

ghost use Rattle.std.specs.Prelude.{◌≡◌, ◌≤◌, length};
ghost use Rattle.model.specs.Limits.{most_side};
ghost use Rattle.model.specs.Read.{result_frames};
ghost use Rattle.frames_read.specs.Follow.{follow};
ghost use Rattle.system_checked.specs.Files.{start};

use cursors::{Cursor, Step, check_line};
use frames_read::{check_lists, check_tiles};
use lines_read::{Due, Kind};

// The lines of a result after an accepted header: tiles, lists and the outcome.
pub fn check_result_lines(text: &[u8], tiles: usize, side: usize) -> Step
    requires { (7 ≤ length text.now) × (side ≤ most_side) }
    ensures { result ≡ follow side text.now (result_frames tiles) start }
{
    let tiles_end = check_tiles(text, Cursor { at: 7, line: 2 }, tiles, side)?;
    let lists_end = check_lists(text, tiles_end, tiles, side)?;
    let due = Due {
        kind: Kind::Outcome.number(),
        i: 0,
        j: 0,
    };
    check_line(text, lists_end, side, due)
}
