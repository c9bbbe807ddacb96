// Refusals 1 and 2, and what later checks may count on.
#![tactic(auto)]

ghost use Rattle.std.specs.Prelude.{◌≡◌, List, ℕ};
ghost use Rattle.worker.specs.declared.Worker.{Worker as SomeWorker};
ghost use Rattle.model.specs.Plan.{plan_of};
ghost use Rattle.model.specs.Refusal.{bad_sizes, bad_lengths};
ghost use Rattle.records.specs.Records.{lent};
ghost use Rattle.checks.specs.Checks.{Sized};

use model::Sizes;
use records::Record;
use shapes::bad_shape;
use task_counts::task_count;
use worker::SLOTS;

// Whether a size is outside its range.
pub fn bad_sizes(z: Sizes) -> bool
    ensures { result ≡ bad_sizes z }
{
    let workers_fit = (1 <= z.workers) & (z.workers <= SLOTS);
    bad_shape(z.tiles, z.side) | !workers_fit
}

// Whether a lent length, or the count of the workers, differs from the one stated.
pub fn bad_lengths(z: Sizes, matrix: &[f64], lists: &[u8], records: &[Record], count: usize) -> bool
    requires { Sized z }
    ensures { (slots : List SomeWorker) (number : ℕ)
        → result ≡ bad_lengths (plan_of z) z.workers (lent matrix.now lists.now records.now slots count number) }
{
    let order = z.tiles * z.side;
    let matrix_fits = matrix.len() == order * order;
    let lists_fit = lists.len() == z.tiles * order;
    let records_fit = records.len() == task_count(z.tiles);
    let workers_fit = count == z.workers;
    !(matrix_fits & lists_fit & records_fit & workers_fit)
}
