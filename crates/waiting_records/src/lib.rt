// The record of a waiting task, by its triple.
#![tactic(auto)]

ghost use Rattle.std.specs.Prelude.{◌≡◌};
ghost use Rattle.model.specs.Calls.{record_of};
ghost use Rattle.links.specs.Closed.{key, task_at};

use model::TaskRecord;
use numbering::Triple;

// The record of a waiting task.
pub fn record_of(a: Triple) -> TaskRecord
    ensures { result ≡ record_of (task_at (key a.k a.i a.j)) }
{
    let waiting = TaskRecord {
        kind: 1,
        k: a.k,
        i: 0,
        j: 0,
        mark: 0,
        worker: 0,
        ties: 0,
        took: 0,
        ended: 0,
    };
    match (a.i == a.k, a.j == a.k) {
        (true, true) => waiting,
        (true, false) => TaskRecord {
            kind: 2,
            j: a.j,
            ..waiting
        },
        (false, true) => TaskRecord {
            kind: 3,
            i: a.i,
            ..waiting
        },
        (false, false) => TaskRecord {
            kind: 4,
            i: a.i,
            j: a.j,
            ..waiting
        },
    }
}
