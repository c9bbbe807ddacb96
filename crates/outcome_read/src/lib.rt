// The outcome of a result's last line.
#![tactic(auto)]

ghost use Rattle.std.specs.Prelude.{◌≡◌, length};
ghost use Rattle.model.specs.Read.{outcome_in};
ghost use Rattle.lines_read.specs.Line.{LineOfDigits};

use digits_read::field_at;
use model::Outcome;

// The outcome on its line.
#[tactic(auto, unfolding(model::specs::Read::outcome_in))]
pub fn outcome_at(line: &[u8]) -> Outcome
    requires line_of_digits { LineOfDigits line.now }
    requires line_len { length line.now ≡ 9 }
    ensures { result ≡ outcome_in line.now }
{
    let place = field_at(line, 4, 4) as u16;
    match field_at(line, 2, 2) {
        0 => Outcome::Good,
        1 => Outcome::Overflow(place),
        _ => Outcome::Singular(place),
    }
}
