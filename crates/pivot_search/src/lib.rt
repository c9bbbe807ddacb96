// The pivot search, on a slice with offsets.
#![tactic(auto)]

ghost use Rattle.std.specs.Prelude.{◌≡◌, true, ◌+◌, ◌*◌, ◌<◌, ◌≤◌, length};
ghost use Rattle.model.specs.Limits.{most_side};
ghost use Rattle.model.specs.Num.{magnitude};
ghost use Rattle.model.specs.Tile.{all_finite};
ghost use Rattle.model.specs.Column.{better};
ghost use Rattle.model.specs.Best.{BestSoFar, Searched};
ghost use Rattle.pivot_search.specs.Candidates.{candidates};

use model::Pivot;
use numbers::magnitude_of;

// The best so far, once the candidate x at `place` is compared with it: x takes over where its magnitude is larger, and is a tie where it is the same
// and not zero.
pub fn keep_best(best: Pivot, place: usize, x: f64) -> Pivot
    requires { (magnitude best.magnitude ≡ best.magnitude) × (best.ties < 65535) }
    ensures value { result ≡ better best place x }
    ensures best_so_far { BestSoFar best place x result }
{
    let magnitude = magnitude_of(x);
    let most = best.magnitude;
    if most < magnitude {
        return Pivot {
            place,
            magnitude,
            ties: 0,
        };
    }
    let tie = (magnitude == most) & (most != 0.0);
    if tie {
        return Pivot {
            ties: best.ties + 1,
            ..best
        };
    }
    best
}

// The candidate of largest magnitude, the first on a tie, and how many others tie with it, among the number at first and count numbers from rest on, stride apart.
pub fn search_pivot(m: &[f64], first: usize, rest: usize, stride: usize, count: usize) -> Pivot
    requires first_in_bounds { (first < length m.now) × (stride ≤ most_side) × (count ≤ most_side) × (rest + count * stride < length m.now + stride) × (length m.now ≤ 65536) }
    requires count_value { all_finite (candidates m.now first rest stride count) ≡ true }
    ensures { Searched (candidates m.now first rest stride count) result }
{
    let mut best = Pivot {
        place: 0,
        magnitude: magnitude_of(m[first]),
        ties: 0,
    };
    for i in 0..count {
        best = keep_best(best, i + 1, m[rest + i * stride]);
    }
    best
}
