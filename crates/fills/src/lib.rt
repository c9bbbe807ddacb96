// Filling parts of the lent slices with one value.
#![tactic(auto)]

ghost use Rattle.std.specs.Prelude.{◌≡◌, ◌+◌, ◌≤◌, length, replicate};
ghost use Rattle.model.specs.Lists.{with_part};

// Sets the n elements from start on to x. A copy of x is x, as of every number.
pub fn fill_part<T: Copy>(slice: &mut [T], start: usize, n: usize, x: T)
    requires part_in_bounds { start + n ≤ length slice.old }
    requires copy_is_x { T.is_infallible x × ((y : T) → T.is_clone x y → y ≡ x) }
    ensures { slice.new ≡ with_part start n (replicate n x) slice.old }
{
    slice[start..start + n].fill(x);
}
