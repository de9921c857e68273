//! What the lock knows of the value that it carries, and of the calls made on it.
ghost use Rattle.std.specs.Prelude.{◌≡◌, ℕ, List, length};
ghost use Rattle.tb_lock.specs.declared.view.Call.{Call};
ghost use Rattle.tb_lock.specs.Meanings.{Meanings, RepeatsStand};

use std::marker::Brand;

/// A value with a history. An entry of it and a call are each a list of numbers.
pub trait Annals {
    // What its history, group in doubt, faults, readings and fixed part are, and what calls and entries are on it.
    ghost means: { Meanings Self };

    /// How many entries the history has.
    fn entries(&self) -> u64
        ensures { result ≡ length (means.history self.now) };

    /// The count of faults.
    fn faults(&self) -> u64
        ensures { result ≡ means.faults self.now };

    // The entry of a call that was answered as a repeat stands in the call's prefix.
    ghost repeats_stand: { RepeatsStand means };
}

/// The calls of one turn.
pub trait Told {
    // Each call, and how many entries stood before it.
    ghost calls: { Self → List (List ℕ × ℕ) };
}

/// The same calls, with their prefixes and counts, as a type names them: a step of the table tells
/// its pass only what a type names.
pub trait Named {
    ghost calls: { List Call };
}

impl Named for Brand {
    ghost use Rattle.std.specs.Prelude.{[]};

    ghost calls = { [] };
}
