// What the program prints for a checked system: the result of one worker's whole run.
#![tactic(auto)]

ghost use Rattle.std.specs.Prelude.{◌≡◌, ◌≤◌, Ok, length};
ghost use Rattle.model.specs.Plan.{sizes};
ghost use Rattle.model.specs.Lengths.{LentFits};
ghost use Rattle.model.specs.Limits.{program_order, most_tasks};
ghost use Rattle.model.specs.Read.{program};
ghost use Rattle.model.specs.declared.FileRead.TheVariants.{SystemRead};
ghost use Rattle.system_checked.specs.Files.{checked_system};
ghost use Rattle.system_printed.specs.Print.{print_result};

use model::{MOST_TASKS, MOST_TILES, PROGRAM_ORDER, WriteAnswer};
use one_worker::run_alone;
use records::{RECORD, Record};
use result_written::write_result;
use system_file::read_system;
use task_counts::task_count;

// Numbers for the largest n, entries for the largest n and N, and records for the largest N.
const NUMBERS: usize = PROGRAM_ORDER * PROGRAM_ORDER;

const ENTRIES: usize = MOST_TILES * PROGRAM_ORDER;

// Works a checked system out in the buffers lent, and prints its result.
fn print_worked(
    text: &[u8],
    tiles: usize,
    side: usize,
    matrix: &mut [f64],
    lists: &mut [u8],
    records: &mut [Record],
    out: &mut [u8],
) -> WriteAnswer
    requires side_value { Ok (SystemRead tiles side) ≡ checked_system program_order text.now }
    requires lent_fits { LentFits (sizes tiles side 1) matrix.old lists.old records.old }
    ensures out_after { record { answer = result; left = out.new } ≡ print_result text.now out.old }
    ensures text_len_bound { length (program text.now) ≤ 65536 }
{
    // A checked text is not refused.
    let _ = read_system(text, matrix);
    let outcome = run_alone(tiles, side, matrix, lists, records);
    write_result(tiles, side, matrix, lists, outcome, out)
}

// Prints the result of a checked system.
pub fn print_system(text: &[u8], tiles: usize, side: usize, out: &mut [u8]) -> WriteAnswer
    requires { Ok (SystemRead tiles side) ≡ checked_system program_order text.now }
    ensures out_after { record { answer = result; left = out.new } ≡ print_result text.now out.old }
    ensures text_len_bound { length (program text.now) ≤ 65536 }
{
    let mut numbers = [0.0; NUMBERS];
    let mut entries = [0; ENTRIES];
    let mut records = [[0; RECORD]; MOST_TASKS];
    let order = tiles * side;
    let elements = order * order;
    let listed = tiles * tiles * side;
    let count = task_count(tiles);
    print_worked(
        text,
        tiles,
        side,
        &mut numbers[..elements],
        &mut entries[..listed],
        &mut records[..count],
        out,
    )
}
