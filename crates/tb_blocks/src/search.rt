//! Where a key belongs in a list that is in the order of its elements' keys.
ghost use Rattle.std.specs.Prelude.{◌≡◌, ℕ, ◌+◌, ◌<◌, ◌≤◌, length};
ghost use Rattle.std.specs.Ordering.{is_eq};
ghost use Rattle.tb_blocks.specs.Orders.{is_below, PartsAt};
ghost use Rattle.tb_blocks.specs.Rows.{joined, AreFilled};

use crate::rows::Rows;

/// An element that has a key. Ordered lists stand in the order of their elements' keys.
pub trait Keyed {
    type Key: Ord + Drop;

    ghost key_of: { Self → Self.Key };

    fn key(&self) -> Self::Key
        ensures { result ≡ key_of self.now };
}

/// A place in a list, and a guess at the block that has it: where the guess is right, nothing is searched again.
#[derive(Clone, Copy)]
pub struct Spot {
    pub place: usize,
    pub block: usize,
}

impl Spot {
    /// The place, of whose block nothing is known.
    pub fn at(place: usize) -> Spot
        ensures { result.place ≡ place }
    {
        Spot { place, block: 0 }
    }
}

// The element stands before the key.
fn is_below<T: Keyed>(element: &T, key: &T::Key) -> bool
    ensures { result ≡ is_below T.Key.cmp T.key_of key.now element.now }
{
    element.key().cmp(key).is_lt()
}

/// The element has the key.
pub fn has_key<T: Keyed>(element: &T, key: &T::Key) -> bool
    ensures { result ≡ is_eq (T.Key.cmp (T.key_of element.now) key.now) }
{
    element.key().cmp(key).is_eq()
}

/// How many of the elements stand before the key, where those come first.
pub fn place_in<T: Keyed>(elements: &[T], key: &T::Key) -> usize
    ensures within { result ≤ length elements.now }
    ensures place { PartsAt T.Key.cmp T.key_of key.now elements.now result }
{
    let (mut low, mut high) = (0, elements.len());
    // The last one is looked at first: elements often come in the order of their keys.
    let mut middle = high.saturating_sub(1);
    while low < high {
        if is_below(&elements[middle], key) {
            low = middle + 1;
        } else {
            high = middle;
        }
        middle = low + (high - low) / 2;
    }
    low
}

impl<T: Keyed + Copy + Drop> Rows<T> {
    /// The place before which the elements stand before the key, where those come first. The blocks are searched by
    /// their first elements, and then one of them.
    pub fn spot_of(&self, key: &T::Key) -> Spot
        requires some { 0 < length self.now.blocks.items }
        requires filled { AreFilled self.now.blocks.items }
        ensures within { result.place ≤ length (joined self.now.blocks.items) }
        ensures place { PartsAt T.Key.cmp T.key_of key.now (joined self.now.blocks.items) result.place }
    {
        let (mut low, mut high) = (0, self.blocks.len());
        let mut middle = high - 1;
        while high - low > 1 {
            let first = self.blocks[middle].first();
            if is_below(&first, key) {
                low = middle;
            } else {
                high = middle;
            }
            middle = low + (high - low) / 2;
        }
        Spot {
            place: self.start(low) + place_in(self.blocks[low].elements(), key),
            block: low,
        }
    }
}
