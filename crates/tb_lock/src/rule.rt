//! The rule of the lock's table, and what each kind of step tells. Nothing here runs.
use crate::annals::{Annals, Named};
use crate::view::View;
use atomic_table::{Join, Play, Split, TableRule};
use std::marker::PhantomData;
use std::snapshot::Snapshot;

/// Turns in order. The table is told the value as it was given to `new`.
pub struct Order;

impl<T: Annals> TableRule<Option<T>, View, Snapshot<T>> for Order {
    ghost use Rattle.tb_lock.specs.Rule.{Rule};
    ghost use Rattle.tb_lock.specs.Views.{newcomer};

    ghost holds = { λ _. Rule T.means };

    ghost first = { λ given. newcomer T.means given.value };
}

pub struct Draw;

impl<S> Play<S, View> for Draw {
    ghost use Rattle.tb_lock.specs.Steps.{Draws};

    ghost then = { Draws };
}

pub struct LookAtServing;

impl<S> Play<S, View> for LookAtServing {
    ghost use Rattle.tb_lock.specs.Steps.{LooksAtServing};

    ghost then = { LooksAtServing };
}

pub struct LookAtFaults;

impl<T: Annals> Play<Option<T>, View> for LookAtFaults {
    ghost use Rattle.tb_lock.specs.Steps.{LooksAtFaults};

    ghost then = { LooksAtFaults T.means };
}

pub struct RaiseFaults;

impl<S> Play<S, View> for RaiseFaults {
    ghost use Rattle.tb_lock.specs.Steps.{RaisesFaults};

    ghost then = { RaisesFaults };
}

pub struct RaiseCount<K>(PhantomData<K>);

impl<T: Annals, K: Named> Play<Option<T>, View> for RaiseCount<K> {
    ghost use Rattle.tb_lock.specs.Steps.{RaisesCount};

    ghost then = { RaisesCount T.means K.calls };
}

pub struct PassOn;

impl<S> Play<S, View> for PassOn {
    ghost use Rattle.tb_lock.specs.Steps.{PassesOn};

    ghost then = { PassesOn };
}

pub struct Halves;

impl Split<View> for Halves {
    ghost use Rattle.tb_lock.specs.Views.{kept_half, given_half};

    ghost left = { kept_half };

    ghost right = { given_half };
}

pub struct Both;

impl Join<View> for Both {
    ghost use Rattle.tb_lock.specs.Views.{joined, spent};

    ghost both = { joined };

    ghost spent = { spent };
}
