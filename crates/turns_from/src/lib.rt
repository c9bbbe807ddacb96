// The turns of a run, from any of them on.
#![tactic(auto)]

ghost use Rattle.std.specs.Prelude.{◌≡◌, ◌-◌, ℕ, ◌≤◌, ◌<◌, get_or, false, MatchOption, IfSome};
ghost use Rattle.worker.specs.Holding.{idle};
ghost use Rattle.model.specs.Limits.{most_workers};
ghost use Rattle.turns_from.specs.NextBusy.{NoneBusy, FirstBusy, NextBusy};
ghost use Rattle.model.specs.Plan.{plan_of};
ghost use Rattle.model.specs.Calls.{run_from};
ghost use Rattle.records.specs.Records.{all_lent, OthersKept};
ghost use Rattle.turns_from.specs.Underway.{Underway};

use advancing::advance;
use model::{CallReply, RunAnswer, RunStop, Sizes};
use next_task::{lowest_ready, search_start, take_task};
use next_worker::worker_after;
use records::Record;
use unfinished::answer_after;
use worker::{Slots, Workers};

// The first busy worker of those from `from` on and below `to`.
fn first_busy(workers: &Slots, from: usize, to: usize) -> Option<usize>
    requires { to ≤ most_workers }
    ensures { MatchOption result (NoneBusy workers.now from to) (FirstBusy workers.now from to) }
{
    for v in from..to {
        if workers[v].busy {
            return Some(v);
        }
    }
    None
}

// The next busy worker from w on, counting `count` workers round.
fn next_busy(workers: &Slots, count: usize, w: usize) -> Option<usize>
    requires { (w < count) × (count ≤ most_workers) }
    ensures next { MatchOption result ((v : ℕ) → v < count → (get_or workers.now v idle).busy ≡ false) (NextBusy workers.now count w) }
    ensures within { IfSome result (λ v. v < count) }
{
    if let Some(v) = first_busy(workers, w, count) {
        return Some(v);
    }
    first_busy(workers, 0, w)
}

// Workers take turns until every task is finished or the budget is spent, once `made` calls are made and the turn is worker `turn`'s. `number` is the run's number. Below `low`,
// and then below `from`, no task is ready, so a search begins there.
pub fn turns_from(
    z: Sizes,
    matrix: &mut [f64],
    lists: &mut [u8],
    records: &mut [Record],
    workers: Workers,
    budget: u64,
    made: u64,
    turn: usize,
    low: usize,
) -> CallReply<RunAnswer>
    requires { Underway z budget matrix.old lists.old records.old workers made turn low }
    ensures workers_after { record {
      answer = result.answer;
      left = all_lent matrix.new lists.new records.new result.workers;
    } ≡ run_from (plan_of z) z.workers (budget - made) made turn (all_lent matrix.old lists.old records.old workers) }
    ensures others_kept { OthersKept workers result.workers }
{
    let mut left = workers.slots;
    let mut number = workers.number;
    let mut w = turn;
    let mut from = low;
    for n in made..budget {
        if !left[w].busy {
            from = lowest_ready(z.tiles, records, from);
            if from < records.len() {
                number += 1;
                left[w] = take_task(records, left[w], from, number);
                from += 1;
                w = worker_after(z.workers, w);
                continue;
            }
            let Some(v) = next_busy(&left, z.workers, w) else {
                return CallReply {
                    answer: Ok(RunStop::Finished(n)),
                    workers: Workers {
                        slots: left,
                        count: workers.count,
                        number,
                    },
                };
            };
            w = v;
        }
        let h = left[w];
        number += 1;
        let g = advance(z, matrix, lists, records, h, w, number);
        left[w] = g;
        from = search_start(from, g.busy, h.task as usize);
        w = worker_after(z.workers, w);
    }
    CallReply {
        answer: answer_after(records, budget),
        workers: Workers {
            slots: left,
            count: workers.count,
            number,
        },
    }
}
