// Reading result files. The whole text is checked first, and the lent buffers are written only where nothing is refused.
#![tactic(auto)]

ghost use Rattle.std.specs.Prelude.{◌≡◌};
ghost use Rattle.model.specs.Read.{no_limit, read_result};
ghost use Rattle.system_checked.specs.Files.{Headed};

use header_read::check_header;
use model::{MOST_ORDER, ReadAnswer, Rule};
use result_checked::check_result_lines;
use result_loaded::load_result;
use system_checked::text_end;

// A result after its accepted header, into the lent buffers.
fn read_result_lines(
    text: &[u8],
    tiles: usize,
    side: usize,
    matrix: &mut [f64],
    lists: &mut [u8],
) -> ReadAnswer
    requires { Headed no_limit text.now tiles side }
    ensures { record { answer = result; matrix = matrix.new; lists = lists.new } ≡ read_result text.now matrix.old lists.old }
{
    let order = tiles * side;
    if matrix.len() != order * order {
        return Err(Rule::BadLengths.at(0));
    }
    if lists.len() != tiles * order {
        return Err(Rule::BadLengths.at(0));
    }
    text_end(text, check_result_lines(text, tiles, side))?;
    load_result(text, tiles, side, matrix, lists)
}

// Reads a result file into the lent matrix and lists, and tells N, t and the outcome. A refusal changes nothing.
pub fn read_result(text: &[u8], matrix: &mut [f64], lists: &mut [u8]) -> ReadAnswer
    ensures { record { answer = result; matrix = matrix.new; lists = lists.new } ≡ read_result text.now matrix.old lists.old }
{
    let shape = check_header(text, MOST_ORDER)?;
    read_result_lines(text, shape.tiles, shape.side, matrix, lists)
}
