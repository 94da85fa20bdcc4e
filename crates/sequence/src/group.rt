// Groups of places of which the first are in use, and the last part of a list.
ghost use Rattle.std.specs.Prelude.{◌≡◌, length, is_none};
ghost use Rattle.std.specs.List.{position};
ghost use Rattle.sequence.specs.Growing.{used, fill, last_of, has_room};

// How many places of a group are in use.
pub fn used_places<T: Copy>(row: &[Option<T>]) -> usize
    ensures { result ≡ length (used row.now) }
{
    row.iter().filter(|place| place.is_some()).count()
}

// Whether a group has a place left.
pub fn has_room<T: Copy, const N: usize>(group: &[Option<T>; N]) -> bool
    ensures { result ≡ has_room N group.now }
{
    used_places(group) < N
}

// The first free place of a group, or none.
fn first_free<T: Copy>(row: &[Option<T>]) -> Option<usize>
    ensures { result ≡ position is_none row.now }
{
    row.iter().position(|place| place.is_none())
}

// Puts a part into the first free place of a group.
pub(crate) fn fill<T: Copy>(row: &mut [Option<T>], part: T)
    ensures { row.new ≡ fill part row.old }
{
    if let Some(free) = first_free(row) {
        row[free] = Some(part);
    }
}

// The last part of a list, or none.
pub fn last<T: Copy>(row: &[T]) -> Option<T>
    ensures { result ≡ last_of row.now }
{
    row.last().copied()
}
