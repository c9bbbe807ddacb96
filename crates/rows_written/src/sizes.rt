// The lengths of what writers write.
ghost use Rattle.std.specs.Prelude.{◌≡◌, ◌≤◌};
ghost use Rattle.model.specs.Limits.{most_tiles, most_side};
ghost use Rattle.rows_written.specs.Rows.{system_length, result_length};

// The length of a system's text.
#[tactic(auto, unfolding(crate::specs::Rows::system_length))]
pub fn system_length(n: usize, t: usize) -> usize
    requires { (n ≤ most_tiles) × (t ≤ most_side) }
    ensures { result ≡ system_length n t }
{
    7 + n * (n * (7 + t * t * 16))
}

// The length of a result's text.
pub fn result_length(n: usize, t: usize) -> usize
    requires { (n ≤ most_tiles) × (t ≤ most_side) }
    ensures { result ≡ result_length n t }
{
    system_length(n, t) + n * (n + 1) / 2 * (7 + t * 2) + 9
}
