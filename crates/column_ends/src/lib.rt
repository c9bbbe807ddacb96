// The end of a column that computed only finite numbers.
#![tactic(auto)]

ghost use Rattle.std.specs.Prelude.{◌<◌};
ghost use Rattle.model.specs.Buffer.{Completed};

use model::ColumnEnd;

// How column c of a task that did not fail ends, with the ties of its pivot: the task is done after column t - 1.
pub fn column_end(t: usize, c: usize, ties: u16) -> ColumnEnd
    requires { c < t }
    ensures { Completed t c ties result }
{
    if c + 1 == t {
        ColumnEnd::Done(ties)
    } else {
        ColumnEnd::GoesOn(ties)
    }
}
