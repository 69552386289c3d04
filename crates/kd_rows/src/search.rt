ghost use Rattle.std.specs.Prelude.{◌-◌, ◌<◌, ◌≤◌, ℕ, true, false};

// Returns the first index in `from..to` at which a test fails, or `to` if it fails at none. Halves
// the range at each step, so the test must hold at all indexes before some index and fail from it
// on. The contract states what the test returns right before the result and at it.
pub(crate) fn first_past<F: Fn(usize) -> bool>(from: usize, to: usize, is_before: F) -> usize
    requires order { from ≤ to }
    requires callable { (i : ℕ) → from ≤ i → i < to → F.pre is_before i }
    ensures from { from ≤ result }
    ensures in_range { result ≤ to }
    ensures before { from < result → F.post is_before (result - 1) true }
    ensures past { result < to → F.post is_before result false }
{
    let mut low = from;
    let mut high = to;
    'halves: while low < high {
        let middle = low + (high - low) / 2;
        if is_before(middle) {
            low = middle + 1;
        } else {
            high = middle;
        }
    }
    low
}
