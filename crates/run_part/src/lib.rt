// The whole run over the first task records of a slice.
#![tactic(auto)]

ghost use Rattle.std.specs.Prelude.{◌≡◌, ◌≤◌, length, take as up_to};
ghost use Rattle.model.specs.Refusal.{run_call};
ghost use Rattle.records.specs.Records.{all_lent, OthersKept};

use model::{CallReply, RunAnswer, Sizes};
use records::Record;
use worker::Workers;

// The run, over the first n of a slice of records.
pub fn run_part(
    z: Sizes,
    matrix: &mut [f64],
    lists: &mut [u8],
    records: &mut [Record],
    n: usize,
    workers: Workers,
    budget: u64,
) -> CallReply<RunAnswer>
    requires { n ≤ length records.old }
    ensures { (record {
      answer = result.answer;
      left = all_lent matrix.new lists.new (up_to n records.new) result.workers;
    } ≡ run_call z budget (all_lent matrix.old lists.old (up_to n records.old) workers))
        × OthersKept workers result.workers }
{
    runs::run(z, matrix, lists, &mut records[..n], workers, budget)
}
