// The turns of a run, once what is lent passed the refusals.
#![tactic(auto)]

ghost use Rattle.std.specs.Prelude.{◌≡◌};
ghost use Rattle.model.specs.Answer.{accepted};
ghost use Rattle.model.specs.Plan.{plan_of};
ghost use Rattle.model.specs.Calls.{whole_run};
ghost use Rattle.model.specs.Refusal.{run_answer};
ghost use Rattle.records.specs.Records.{all_lent, OthersKept};

use model::{CallReply, RunAnswer, Sizes};
use records::Record;
use turns_from::turns_from;
use worker::Workers;

// Workers take turns until every task is finished or the budget is spent. Worker 0 begins.
pub fn take_turns(
    z: Sizes,
    matrix: &mut [f64],
    lists: &mut [u8],
    records: &mut [Record],
    workers: Workers,
    budget: u64,
) -> CallReply<RunAnswer>
    requires { run_answer z (all_lent matrix.old lists.old records.old workers) ≡ accepted }
    ensures workers_after { record {
      answer = result.answer;
      left = all_lent matrix.new lists.new records.new result.workers;
    } ≡ whole_run (plan_of z) z.workers budget (all_lent matrix.old lists.old records.old workers) }
    ensures others_kept { OthersKept workers result.workers }
{
    let n = 0;
    let w = 0;
    let from = 0;
    turns_from(z, matrix, lists, records, workers, budget, n, w, from)
}
