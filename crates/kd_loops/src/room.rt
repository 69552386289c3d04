ghost use Rattle.std.specs.Prelude.{◌≡◌, ◌+◌, ◌≤◌, ◌++◌, length, vec_capacity};

// Appends bytes for which there is room; allocates no memory.
pub(crate) fn put(room: &mut Vec<u8>, bytes: &[u8])
    requires { length room.old.items + length bytes.now ≤ vec_capacity room.old }
    ensures items { room.new.items ≡ room.old.items ++ bytes.now }
    ensures capacity { vec_capacity room.old ≤ vec_capacity room.new }
{
    match room.extend_from_slice(bytes) {
        Ok(()) => {}
        Err(_) => unreachable!(),
    }
}
