//! What a query is answered, whole: terms, results, or a list of lines.
ghost use Rattle.std.specs.Prelude.{◌≡◌, ◌<◌, [], ◌∷◌, ◌++◌, length, slice_get, Some, OnOk, OnErr};

use crate::readings::{AddOnLine, AwardLine, BidLine, HoldingLine, PaidLine, Results};
use std::alloc::Global;
use std::marker::Model;
use tb_terms::Announcement;
use tb_units::{Cents, OutOfMemory};

/// What a query is answered.
#[derive(Debug, Drop)]
pub enum Reading {
    Terms(Announcement),
    Results(Results),
    Awards(Awards),
    Bids(Bids),
    Holdings(Holdings),
    Redemption(Redemption),
    Funds(Cents),
}

/// A submitter's bidders with a live bid in an auction, in the order of enrolment, and the add-on, where it is the
/// holder.
#[derive(Debug, Drop)]
pub struct Awards {
    pub lines: Listing<AwardLine>,
    pub addon: Option<AddOnLine>,
}

/// A submitter's bids in an auction, in the order of acceptance.
pub type Bids = Listing<BidLine>;

/// The bills that a participant holds, in the order of their first announcement.
pub type Holdings = Listing<HoldingLine>;

/// Those that were paid for a bill, in the order of registration.
pub type Redemption = Listing<PaidLine>;

/// The lines of a reading, in order. Contracts see the list of them.
#[derive(Debug, Drop)]
pub struct Listing<L> {
    lines: Vec<L>,
}

impl<L> Model for Listing<L> {
    ghost use Rattle.std.specs.Prelude.{List};

    ghost Value = { List L };

    ghost view = { λ listing. listing.lines.items };
}

impl<L: Drop> Listing<L> {
    /// No line yet, which takes no memory.
    pub fn new(alloc: Global) -> Listing<L>
        ensures { result ≡ [] }
    {
        Listing {
            lines: Vec::new(alloc),
        }
    }

    /// Puts a line behind the others.
    pub fn push(&mut self, line: L) -> Result<(), OutOfMemory>
        ensures pushed { OnOk result (self.new ≡ self.old ++ line ∷ []) }
        ensures unchanged { OnErr result (self.new ≡ self.old) }
    {
        self.lines.push(line)?;
        Ok(())
    }

    /// How many lines there are.
    pub fn count(&self) -> u64
        ensures { result ≡ length self.now }
    {
        self.lines.len() as u64
    }

    /// The line at a place, counted from 0.
    pub fn line(&self, place: u64) -> &L
        requires { place < length self.now }
        ensures { slice_get self.now place ≡ Some result.now }
    {
        &self.lines[place as usize]
    }

    /// All lines.
    pub fn lines(&self) -> &[L]
        ensures { result.now ≡ self.now }
    {
        &self.lines
    }
}
