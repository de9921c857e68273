//! By what rows are found.
ghost use Rattle.std.specs.Prelude.{◌≡◌};

use std::hash::Hash;

/// A key that each row of a type has. Rows that have several keys have a type of this kind for each. A key is found by
/// its order or by its hash, as the rows say.
pub trait KeyOf<T> {
    type Key: Ord + Hash + Copy + Drop;

    ghost key_of: { T → Self.Key };

    fn key_of(row: &T) -> Self::Key
        ensures { result ≡ key_of row.now };
}
