// A task's record read as the step that the task asks for. A record's kind is a byte, 1 to 4, which C hands over; nothing above looks at that number.
#![tactic(auto)]

ghost use Rattle.std.specs.Prelude.{◌≡◌, ℕ};
ghost use Rattle.checks.specs.Checks.{Inside, task_from};
ghost use Rattle.steps.specs.Steps.{InsideOf, task_asking};

use model::TaskRecord;

// The four steps, with the indices of the tiles that each works on: T-1(k), T-2(k,j), T-3(k,i) and T-4(k,i,j).
#[derive(Clone, Copy)]
pub enum Step {
    Factor { k: usize },
    Apply { k: usize, j: usize },
    Couple { k: usize, i: usize },
    Pair { k: usize, i: usize, j: usize },
}

// The step that a record's task asks for.
pub fn step_of(task: TaskRecord) -> Step
    ensures same_task { task_asking result ≡ task_from task }
    ensures inside { (n : ℕ) → Inside n task → InsideOf n result }
{
    let k = task.k as usize;
    let i = task.i as usize;
    let j = task.j as usize;
    match task.kind {
        1 => Step::Factor { k },
        2 => Step::Apply { k, j },
        3 => Step::Couple { k, i },
        _ => Step::Pair { k, i, j },
    }
}
