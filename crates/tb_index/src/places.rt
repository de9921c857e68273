//! The first place of each key of a list, in the order of the keys.
ghost use Rattle.std.specs.Prelude.{◌≡◌, ◌+◌, ◌<◌, ◌≤◌, [], ◌∷◌, ◌++◌, List, length};
ghost use Rattle.tb_index.specs.Indexes.{first_of, tied, ArePlaces};

use tb_blocks::Ordered;

/// A key with the first place where it stands in a list.
#[derive(Clone, Copy, Drop)]
pub struct Place<K> {
    pub key: K,
    pub place: usize,
}

impl<K: Ord + Copy + Drop> tb_blocks::Keyed for Place<K> {
    type Key = K;

    ghost key_of = { λ place. place.key };

    fn key(&self) -> K {
        self.key
    }
}

/// The keys of a list with their first places.
pub type Places<K> = Ordered<Place<K>>;

/// The first place of the key in the list.
pub fn first_place<K: Ord + Copy + Drop>(places: &Places<K>, key: &K) -> Option<usize>
    ensures { (keys : List K) → ArePlaces K.cmp keys places.now.elements → result ≡ first_of (tied K.cmp) key.now keys }
{
    let spot = places.find(key)?;
    Some(places.at_spot(spot).place)
}

/// Adds the key at the end of the list, which is the place.
pub fn add_place<K: Ord + Copy + Drop>(places: &mut Places<K>, key: K, place: usize)
    requires { 0 < places.old.spare }
    ensures places { (keys : List K) → length keys ≡ place → ArePlaces K.cmp keys places.old.elements
        → ArePlaces K.cmp (keys ++ key ∷ []) places.new.elements }
    ensures spare { places.old.spare ≤ places.new.spare + 1 }
{
    let _ = places.add(Place { key, place });
}

/// Takes the key off the end of the list, which is the place.
pub fn take_place<K: Ord + Copy + Drop>(places: &mut Places<K>, key: &K, place: usize)
    ensures places { (keys : List K) → length keys ≡ place → ArePlaces K.cmp (keys ++ key.now ∷ []) places.old.elements
        → ArePlaces K.cmp keys places.new.elements }
    ensures spare { places.old.spare ≤ places.new.spare }
{
    if let Some(spot) = places.find(key) {
        if places.at_spot(spot).place == place {
            let _ = places.remove(key);
        }
    }
}
