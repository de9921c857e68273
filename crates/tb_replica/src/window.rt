//! A window of places that moves on: for each of its places something is kept, or nothing.
ghost use Rattle.std.specs.Prelude.{◌≡◌, ℕ, ◌<◌, length, slice_index_or, None, IfOk};
ghost use Rattle.tb_replica.specs.Window.{first, shifted, keeping};

use std::alloc::Global;
use std::collections::VecDeque;
use std::marker::Model;
use tb_units::OutOfMemory;

/// How many places there are.
pub(crate) const PLACES: usize = 1_023;

/// What is kept for 1,023 places in a row. It has the memory for all of them.
#[derive(Drop)]
pub(crate) struct Window<T: Drop> {
    places: VecDeque<Option<T>>,
}

impl<T: Drop> Model for Window<T> {
    ghost use Rattle.std.specs.Prelude.{◌≡◌, ◌≤◌, List, Option, length};
    ghost use Rattle.std.specs.VecDeque.{deque_len, deque_capacity};

    ghost Value = { List (Option T) };

    ghost view = { λ a. a.places.items };

    ghost invariant = { λ a. (length a.places.items ≡ 1023) × (deque_len a.places ≡ 1023)
        × (1023 ≤ deque_capacity a.places) };
}

impl<T: Copy + Drop> Window<T> {
    /// Keeps nothing yet.
    pub(crate) fn new(alloc: Global) -> Result<Window<T>, OutOfMemory>
        ensures { IfOk result (λ window. (length window ≡ 1023)
            × ((index : ℕ) → slice_index_or window index None ≡ None)) }
    {
        let Ok(mut places) = VecDeque::with_capacity(alloc, PLACES) else {
            return Err(OutOfMemory);
        };
        for _ in 0..PLACES {
            places.push_back_reserved(None);
        }
        Ok(Window { places })
    }

    /// Keeps it for one of the places, unless something is kept for it already.
    pub(crate) fn keep(&mut self, index: usize, kept: &T)
        requires { index < 1023 }
        ensures { self.new ≡ keeping self.old index kept.now }
    {
        if self.places[index].is_none() {
            self.places[index] = Some(*kept);
        }
    }

    /// Gives what is kept for the first of the places, which goes; one more stands behind them.
    pub(crate) fn next(&mut self) -> Option<T>
        ensures given { result ≡ first self.old }
        ensures left { self.new ≡ shifted self.old }
    {
        let kept = self.places.pop_front();
        self.places.push_back_reserved(None);
        kept.flatten()
    }
}
