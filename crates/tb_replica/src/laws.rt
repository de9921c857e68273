//! What holds of parcels of one history, as contracts of functions that do nothing.
ghost use Rattle.std.specs.Prelude.{◌≡◌, ℕ, ◌++◌, ◌<◌, List, Err, Some, All, Any, Contains, length};
ghost use Rattle.tb_message.specs.declared.message.Entry.{Entry};
ghost use Rattle.tb_history.specs.Legal.{IsLegal};
ghost use Rattle.tb_parcel.specs.declared.parcel.Parcel.{Parcel};
ghost use Rattle.tb_replica.specs.declared.taken.TakeFault.TheVariants as fault;
ghost use Rattle.tb_replica.specs.Delivery.{Arrived, DeliverAll, IsSameArrival};
ghost use Rattle.tb_replica.specs.Following.{Following, Outcome, GoesOn, Takes};
ghost use Rattle.tb_replica.specs.Arrival.{Begins, IsOf, AreOf, AreTaken, IsDelivered, kept_at, places_of};
ghost use Rattle.tb_replica.specs.Followers.{IsFresh};

/// Parcels of a legal history may be lost, repeated and reordered. It does nothing.
pub fn parcels_arrive()
    // What was opened on a beginning of it goes on to the beginning that delivery says.
    ensures delivered { (history : List Entry) (parcels : List Parcel) (old new : Following)
        → IsLegal history
        → Begins history old
        → AreOf history parcels
        → AreTaken parcels old new
        → IsDelivered history (places_of parcels) old new }
    // No parcel of it is a fork.
    ensures no_fork { (history : List Entry) (parcels : List Parcel) (old between new : Following) (parcel : Parcel)
        (at : ℕ)
        → IsLegal history
        → Begins history old
        → AreOf history parcels
        → AreTaken parcels old between
        → IsOf history parcel
        → ¬ (Takes parcel between new (Err (fault.Forked at))) }
    // Whatever parcels come, the copy goes on and stays legal; and so it does with a parcel behind them that meets a
    // fault.
    ensures legal { (parcels : List Parcel) (old new : Following)
        → IsLegal old.history
        → AreTaken parcels old new
        → GoesOn old.history new.history }
    ensures legal_last { (parcel : Parcel) (old new : Following) (outcome : Outcome)
        → IsLegal old.history
        → Takes parcel old new outcome
        → GoesOn old.history new.history }
    // What is kept for a place came with one of the parcels.
    ensures kept { (parcels : List Parcel) (old new : Following) (place : ℕ) (entry : Entry)
        → IsFresh old
        → AreTaken parcels old new
        → length new.history < place
        → kept_at new place ≡ Some entry
        → Contains parcels (record { place = place; entry = entry }) }
    // Each entry that is added came with one of the parcels.
    ensures own { (parcels : List Parcel) (old new : Following) (more : List Entry)
        → IsFresh old
        → AreTaken parcels old new
        → new.history ≡ old.history ++ more
        → All (λ entry. Any (λ parcel. parcel.entry ≡ entry) parcels) more }
    // Delivery says which.
    ensures one { (places : List ℕ) (old one other : Arrived)
        → DeliverAll places old one
        → DeliverAll places old other
        → IsSameArrival one other }
{}
