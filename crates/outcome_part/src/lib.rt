// The outcome of a system over the first task records of a slice.
#![tactic(auto)]

ghost use Rattle.std.specs.Prelude.{◌≡◌, ◌≤◌, length, take as up_to};
ghost use Rattle.model.specs.Refusal.{outcome_call};
ghost use Rattle.records.specs.Records.{all_lent};

use model::{OutcomeAnswer, Sizes};
use records::Record;
use worker::Workers;

// The outcome, over the first n of a slice of records.
pub fn outcome_part(
    z: Sizes,
    matrix: &[f64],
    lists: &[u8],
    records: &[Record],
    n: usize,
    workers: Workers,
) -> OutcomeAnswer
    requires { n ≤ length records.now }
    ensures { result ≡ outcome_call z (all_lent matrix.now lists.now (up_to n records.now) workers) }
{
    outcomes::outcome(z, matrix, lists, &records[..n], workers)
}
