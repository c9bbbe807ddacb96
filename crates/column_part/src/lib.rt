// A column call over the first task records of a slice.
#![tactic(auto)]

ghost use Rattle.std.specs.Prelude.{◌≡◌, ◌≤◌, length, take as up_to};
ghost use Rattle.model.specs.Refusal.{column_call};
ghost use Rattle.records.specs.Records.{all_lent, OthersKept};

use model::{Answer, CallReply, Sizes};
use records::Record;
use worker::Workers;

// A column call, over the first n of a slice of records.
pub fn column_part(
    z: Sizes,
    matrix: &mut [f64],
    lists: &mut [u8],
    records: &mut [Record],
    n: usize,
    workers: Workers,
    w: usize,
) -> CallReply<Answer>
    requires { n ≤ length records.old }
    ensures { (record {
      answer = result.answer;
      left = all_lent matrix.new lists.new (up_to n records.new) result.workers;
    } ≡ column_call z w (all_lent matrix.old lists.old (up_to n records.old) workers))
        × OthersKept workers result.workers }
{
    working::column(z, matrix, lists, &mut records[..n], workers, w)
}
