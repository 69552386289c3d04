ghost use Rattle.std.specs.Prelude.{◌≡◌, ℕ, ◌<◌, ◌≤◌, ◌==◌, if◌then◌else◌, length};
ghost use Rattle.kd_token.specs.Table.{arrived, entry_at, point};

use crate::shape::Shape;

// What has arrived at a place: nothing, a shape with the greatest count of steps, or shapes that do
// not meet.
#[derive(Drop)]
pub(crate) enum Entry {
    Unreached,
    Joined(Shape, u32),
    Clash,
}

impl Entry {
    // Adds a shape that arrives after `count` steps.
    fn arrive(&mut self, shape: Shape, count: u32)
        requires few { length shape ≤ 64 }
        ensures { self.new ≡ arrived (point shape count) self.old }
    {
        match self {
            Entry::Unreached => *self = Entry::Joined(shape, count),
            Entry::Joined(known, most) => match known.meet(&shape) {
                Some(()) => *most = (*most).max(count),
                None => *self = Entry::Clash,
            },
            Entry::Clash => {}
        }
    }
}

// Adds a shape that arrives at a place of the table after `count` steps.
pub(crate) fn arrive(table: &mut [Entry], to: usize, shape: Shape, count: u32)
    requires within { to < length table.old }
    requires few { length shape ≤ 64 }
    ensures length { length table.new ≡ length table.old }
    ensures arrived { (j : ℕ)
        → entry_at table.new j
        ≡ (if j == to then arrived (point shape count)
        (entry_at table.old j) else entry_at table.old j) }
{
    table[to].arrive(shape, count);
}
