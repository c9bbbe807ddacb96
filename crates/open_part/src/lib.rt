// Opening a system over the first task records of a slice.
#![tactic(auto)]

ghost use Rattle.std.specs.Prelude.{◌≡◌, ◌≤◌, length, take as up_to};
ghost use Rattle.model.specs.Refusal.{open_call};
ghost use Rattle.records.specs.Records.{all_lent, OthersKept};

use model::{Answer, CallReply, Sizes};
use records::Record;
use worker::Workers;

// The opening, over the first n of a slice of records.
pub fn open_part(
    z: Sizes,
    matrix: &[f64],
    lists: &mut [u8],
    records: &mut [Record],
    n: usize,
    workers: Workers,
) -> CallReply<Answer>
    requires { n ≤ length records.old }
    ensures { (record {
      answer = result.answer;
      left = all_lent matrix.now lists.new (up_to n records.new) result.workers;
    } ≡ open_call z (all_lent matrix.now lists.old (up_to n records.old) workers))
        × OthersKept workers result.workers }
{
    opening::open(z, matrix, lists, &mut records[..n], workers)
}
