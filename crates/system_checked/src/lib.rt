// Checking system files: the whole text, and nothing is lent.
#![tactic(auto)]

ghost use Rattle.std.specs.Prelude.{◌≡◌, ◌≤◌, length};
ghost use Rattle.model.specs.Limits.{most_side};
ghost use Rattle.model.specs.Read.{system_frames};
ghost use Rattle.frames_read.specs.Follow.{follow, text_end};
ghost use Rattle.system_checked.specs.Files.{start, checked_system};

use cursors::{Cursor, Step};
use frames_read::check_tiles;
use header_read::check_header;
use model::{Answer, FileRead, ReadAnswer, Rule};

// 14 where text comes after the last frame, and else what the frames answered.
pub fn text_end(text: &[u8], step: Step) -> Answer
    ensures { result ≡ text_end text.now step }
{
    let end = step?;
    if end.at < text.len() {
        return Err(Rule::WrongEnd.at(end.line));
    }
    Ok(())
}

// The lines of a system after an accepted header.
pub fn check_system_lines(text: &[u8], tiles: usize, side: usize) -> Answer
    requires { (7 ≤ length text.now) × (side ≤ most_side) }
    ensures { result ≡ text_end text.now (follow side text.now (system_frames tiles) start) }
{
    text_end(
        text,
        check_tiles(text, Cursor { at: 7, line: 2 }, tiles, side),
    )
}

// Checks a system file, whose n is at most limit, and tells N and t: then buffers can be lent for it.
pub fn check_system(text: &[u8], limit: usize) -> ReadAnswer
    ensures { result ≡ checked_system limit text.now }
{
    let shape = check_header(text, limit)?;
    check_system_lines(text, shape.tiles, shape.side)?;
    Ok(FileRead::SystemRead(shape.tiles, shape.side))
}
