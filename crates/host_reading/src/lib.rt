// Reading system and result files, for hosts. hosts/solumivaf.h declares them.
#![tactic(auto)]

ghost use Rattle.std.specs.Prelude.{◌≡◌};
ghost use Rattle.model.specs.Read.{read_system, read_result};
ghost use Rattle.header_read.specs.Heads.{sizes_in};
ghost use Rattle.host_answers.specs.Answers.{read_told};

use host_answers::{ReadTold, tell_read};

// Tells N and t by line 1 of a system file or of a result file.
#[unsafe(no_mangle)]
pub extern "C" fn solumivaf_read_sizes(text: &[u8]) -> ReadTold
    ensures { result ≡ read_told (sizes_in text.now) }
{
    let answer = header_read::read_sizes(text);
    tell_read(answer)
}

// Reads a system file into the lent matrix.
#[unsafe(no_mangle)]
pub extern "C" fn solumivaf_read_system(text: &[u8], matrix: &mut [f64]) -> ReadTold
    ensures { (result ≡ read_told (read_system text.now matrix.old).answer)
        × (matrix.new ≡ (read_system text.now matrix.old).matrix) }
{
    let answer = system_file::read_system(text, matrix);
    tell_read(answer)
}

// Reads a result file into the lent matrix and lists.
#[unsafe(no_mangle)]
pub extern "C" fn solumivaf_read_result(
    text: &[u8],
    matrix: &mut [f64],
    lists: &mut [u8],
) -> ReadTold
    ensures { (result ≡ read_told (read_result text.now matrix.old lists.old).answer)
        × (matrix.new ≡ (read_result text.now matrix.old lists.old).matrix)
        × (lists.new ≡ (read_result text.now matrix.old lists.old).lists) }
{
    let answer = result_file::read_result(text, matrix, lists);
    tell_read(answer)
}
