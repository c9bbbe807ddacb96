// Reading system files. The whole text is checked first, and the lent matrix is written only where nothing is refused.
#![tactic(auto)]

ghost use Rattle.std.specs.Prelude.{◌≡◌};
ghost use Rattle.model.specs.Read.{no_limit, read_system};
ghost use Rattle.system_checked.specs.Files.{Headed};

use header_read::check_header;
use model::{FileRead, MOST_ORDER, ReadAnswer, Rule};
use numbers_read::load_tiles;
use system_checked::check_system_lines;

// A system after its accepted header, into the lent matrix.
fn read_system_lines(text: &[u8], tiles: usize, side: usize, matrix: &mut [f64]) -> ReadAnswer
    requires { Headed no_limit text.now tiles side }
    ensures { record { answer = result; matrix = matrix.new } ≡ read_system text.now matrix.old }
{
    let order = tiles * side;
    if matrix.len() != order * order {
        return Err(Rule::BadLengths.at(0));
    }
    check_system_lines(text, tiles, side)?;
    load_tiles(text, 7, side * side, tiles * tiles, matrix);
    Ok(FileRead::SystemRead(tiles, side))
}

// Reads a system file into the lent matrix, and tells N and t. A refusal changes nothing.
pub fn read_system(text: &[u8], matrix: &mut [f64]) -> ReadAnswer
    ensures { record { answer = result; matrix = matrix.new } ≡ read_system text.now matrix.old }
{
    let shape = check_header(text, MOST_ORDER)?;
    read_system_lines(text, shape.tiles, shape.side, matrix)
}
