// What the program prints for a text: the result of one worker's whole run, or the line of a refusal.
#![tactic(auto)]

ghost use Rattle.std.specs.Prelude.{◌≡◌, ◌≤◌, length};
ghost use Rattle.model.specs.Read.{program};
ghost use Rattle.system_printed.specs.Print.{print_result};

use model::{FileRead, PROGRAM_ORDER, WriteAnswer};
use refusal_written::write_refusal;
use system_checked::check_system;
use system_printed::print_system;

// Fills the front of the lent text with what the program prints for a text, and tells its length: 15 where the lent text is too short, which one of
// 65,536 bytes never is.
pub fn print_result(text: &[u8], out: &mut [u8]) -> WriteAnswer
    ensures out_after { record { answer = result; left = out.new } ≡ print_result text.now out.old }
    ensures text_len_bound { length (program text.now) ≤ 65536 }
{
    match check_system(text, PROGRAM_ORDER) {
        Ok(FileRead::SystemRead(tiles, side)) => print_system(text, tiles, side, out),
        // A system's check never answers this.
        Ok(FileRead::ResultRead(_, _, _)) => write_refusal(12, 1, out),
        Err(why) => write_refusal(why.rule.number(), why.place, out),
    }
}
