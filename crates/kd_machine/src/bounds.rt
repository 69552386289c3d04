ghost use Rattle.std.specs.Prelude.{◌≡◌, ℕ, ◌≤◌, List, length, None, Some, slice_range};
ghost use Rattle.kd_machine.specs.Strings.{start_in, part, substring};

// Returns where a substring begins in a string of `size` bytes, or nothing if it begins outside.
fn beginning(start: i32, size: usize) -> Option<usize>
    ensures { result ≡ start_in start size }
{
    let distance = start.unsigned_abs() as usize;
    if start < 0 {
        if distance <= size {
            Some(size - distance)
        } else {
            None
        }
    } else if distance < size {
        Some(distance)
    } else {
        None
    }
}

// Returns the range (start, end) of the substring that begins at `begin`.
fn ends(count: Option<i32>, begin: usize, size: usize) -> (usize, usize)
    requires { begin ≤ size }
    ensures within { (result.0 ≤ result.1) × (result.1 ≤ size) }
    ensures part { (bytes : List ℕ) → length bytes ≡ size
        → slice_range bytes result.0 result.1 ≡ part count begin bytes }
{
    match count {
        None => (begin, size),
        Some(count) => {
            let distance = count.unsigned_abs() as usize;
            if count < 0 {
                (begin.saturating_sub(distance), begin)
            } else {
                (begin, begin + distance.min(size - begin))
            }
        }
    }
}

// Returns the range (start, end) of a substring of a string of `size` bytes.
pub(crate) fn bounds(start: i32, count: Option<i32>, size: usize) -> (usize, usize)
    ensures within { (result.0 ≤ result.1) × (result.1 ≤ size) }
    ensures part { (bytes : List ℕ) → length bytes ≡ size
        → slice_range bytes result.0 result.1 ≡ substring start count bytes }
{
    match beginning(start, size) {
        None => (0, 0),
        Some(begin) => ends(count, begin, size),
    }
}
