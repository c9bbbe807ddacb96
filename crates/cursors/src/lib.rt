// A cursor in a text goes past the line that is due, which is checked, or is stopped by its refusal.
#![tactic(auto)]

ghost use Rattle.std.specs.Prelude.{◌≡◌, ◌≤◌};
ghost use Rattle.model.specs.Limits.{most_side};
ghost use Rattle.model.specs.Read.{line_length};
ghost use Rattle.lines_read.specs.Line.{frame_of};
ghost use Rattle.cursors.specs.Steps.{CursorFits, step_of};

use lines_read::{Due, line_answer};
use model::{Refusal, Rule};

// A place in a text that a line starts at, and the line's number from 1.
#[derive(Clone, Copy)]
pub struct Cursor {
    pub at: usize,
    pub line: usize,
}

// The cursor after what was read, or the refusal that stops it.
pub type Step = Result<Cursor, Refusal>;

// How long a line of a kind is, its 0A with it.
#[tactic(auto, unfolding(model::specs::Read::line_length))]
fn line_length(t: usize, kind: usize) -> usize
    requires { t ≤ most_side }
    ensures { result ≡ line_length t kind }
{
    // a number, not a Kind: it stands for any kind that a caller asks for
    match kind {
        1 => 7,
        2 => 7 + 16 * (t * t),
        3 => 7 + 2 * t,
        _ => 9,
    }
}

// The line at the cursor, where a frame is due.
pub fn check_line(text: &[u8], c: Cursor, t: usize, due: Due) -> Step
    requires cursor_fits { CursorFits text.now c }
    requires t_le_most_side { t ≤ most_side }
    ensures { result ≡ step_of t text.now (frame_of due) c }
{
    let at = c.at;
    let line = c.line;
    if text.len() == at {
        return Err(Rule::WrongEnd.at(line));
    }
    let size = line_length(t, due.kind);
    if text.len() - at < size {
        return Err(Rule::Malformed.at(line));
    }
    let end = at + size;
    line_answer(&text[at..end], line, t, due)?;
    Ok(Cursor {
        at: end,
        line: line + 1,
    })
}
