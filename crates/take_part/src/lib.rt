// A take over the first task records of a slice.
#![tactic(auto)]

ghost use Rattle.std.specs.Prelude.{◌≡◌, ◌≤◌, length, take as up_to};
ghost use Rattle.model.specs.Refusal.{take_call};
ghost use Rattle.records.specs.Records.{all_lent, OthersKept};

use model::{Answer, CallReply, Sizes};
use records::Record;
use worker::Workers;

// A take, over the first n of a slice of records.
pub fn take_part(
    z: Sizes,
    matrix: &[f64],
    lists: &[u8],
    records: &mut [Record],
    n: usize,
    workers: Workers,
    w: usize,
    p: usize,
) -> CallReply<Answer>
    requires { n ≤ length records.old }
    ensures { (record {
      answer = result.answer;
      left = all_lent matrix.now lists.now (up_to n records.new) result.workers;
    } ≡ take_call z w p (all_lent matrix.now lists.now (up_to n records.old) workers))
        × OthersKept workers result.workers }
{
    taking::take(z, matrix, lists, &mut records[..n], workers, w, p)
}
