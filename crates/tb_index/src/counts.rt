//! How often each name of a list stands in it, found by the hash of the name.
ghost use Rattle.std.specs.Prelude.{◌≡◌, ◌+◌, ◌-◌, ◌^◌, ◌<◌, ◌≤◌, [], ◌∷◌, ◌++◌, List, length};
ghost use Rattle.std.specs.HashMap.{spare};
ghost use Rattle.tb_index.specs.Indexes.{number_of, AreCounts};

use std::collections::HashMap;
use std::hash::Hash;

/// The names of a list, each with a number: how often it stands there, or where it ends. A name that was taken off may
/// stay, with none.
pub type Counts<K> = HashMap<K, usize>;

/// How often the name stands in the list.
pub fn count_of<K: Eq + Hash + Copy + Drop>(counts: &Counts<K>, key: &K) -> usize
    ensures { (keys : List K) → AreCounts K.eq keys counts.now → result ≡ number_of K.eq key.now keys }
{
    counts.get(key).copied().unwrap_or(0)
}

/// Adds the name to the list, which isn't too long.
pub fn add_count<K: Eq + Hash + Copy + Drop>(counts: &mut Counts<K>, key: K)
    requires room { 0 < spare counts.old }
    requires few { (keys : List K) × AreCounts K.eq keys counts.old × (length keys < 2 ^ 64 - 1) }
    ensures counts { (keys : List K) → AreCounts K.eq keys counts.old → AreCounts K.eq (keys ++ key ∷ []) counts.new }
    ensures spare { spare counts.old ≤ spare counts.new + 1 }
{
    match counts.get_mut(&key) {
        Some(count) => *count += 1,
        None => {
            let _ = counts.insert(key, 1);
        }
    }
}

/// Takes the name off the end of the list.
pub fn take_count<K: Eq + Hash + Copy + Drop>(counts: &mut Counts<K>, key: &K)
    ensures counts { (keys : List K) → AreCounts K.eq (keys ++ key.now ∷ []) counts.old
        → AreCounts K.eq keys counts.new }
    ensures spare { spare counts.old ≤ spare counts.new }
{
    if let Some(count) = counts.get_mut(key) {
        *count = count.saturating_sub(1);
    }
}
