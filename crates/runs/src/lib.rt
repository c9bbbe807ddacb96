// The whole run: refusals 1, 2 and 4 are checked once, then workers take turns.
#![tactic(auto)]

ghost use Rattle.std.specs.Prelude.{◌≡◌};
ghost use Rattle.model.specs.Refusal.{run_call};
ghost use Rattle.records.specs.Records.{all_lent, OthersKept};

use model::{CallReply, RunAnswer, Sizes};
use records::Record;
use run_checks::run_answer;
use turns::take_turns;
use worker::Workers;

// Runs a system for at most `budget` calls. The answer has the count of the calls made.
pub fn run(
    z: Sizes,
    matrix: &mut [f64],
    lists: &mut [u8],
    records: &mut [Record],
    workers: Workers,
    budget: u64,
) -> CallReply<RunAnswer>
    ensures workers_after { record {
      answer = result.answer;
      left = all_lent matrix.new lists.new records.new result.workers;
    } ≡ run_call z budget (all_lent matrix.old lists.old records.old workers) }
    ensures others_kept { OthersKept workers result.workers }
{
    let answer = run_answer(z, matrix, lists, records, workers);
    if let Err(why) = answer {
        return CallReply {
            answer: Err(why),
            workers,
        };
    }
    take_turns(z, matrix, lists, records, workers, budget)
}
