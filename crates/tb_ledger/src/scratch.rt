//! What a settlement works in.
ghost use Rattle.std.specs.Prelude.{◌≡◌, ◌+◌, ◌<◌, ◌≤◌, ◌^◌, OnOk};
ghost use Rattle.tb_ledger.specs.Settling.{HasScratch, IsTaken};

use std::alloc::Global;
use tb_award::Recognised;
use tb_units::OutOfMemory;

/// A list of recognised lines and arrays of the bidders' positions and awards, which serve all settlements, and for how
/// many more messages their room lasts.
#[derive(Drop)]
pub struct Scratch {
    pub recognised: Recognised,
    pub positions: Vec<i64>,
    pub awards: Vec<u128>,
    pub lasts: usize,
}

impl Scratch {
    /// With no room, which takes no memory.
    pub fn new(alloc: Global) -> Scratch
        ensures { result.lasts ≡ 0 }
    {
        Scratch {
            recognised: Recognised::empty(alloc),
            positions: Vec::new(alloc),
            awards: Vec::new(alloc),
            lasts: 0,
        }
    }

    /// Takes the memory for a settlement behind so many bids and bidders and so many more messages.
    pub fn reserve(&mut self, bids: usize, bidders: usize, more: usize) -> Result<(), OutOfMemory>
        requires bids { bids + more < 2 ^ 64 }
        requires bidders { bidders + more < 2 ^ 64 }
        requires has { HasScratch bids bidders self.old }
        ensures has { HasScratch bids bidders self.new }
        ensures lasts { OnOk result (more ≤ self.new.lasts) }
        // No room is lost, whatever the result.
        ensures room { self.old.lasts ≤ self.new.lasts }
    {
        self.recognised
            .reserve((bids + more) as u64, (bidders + more) as u64)?;
        self.positions.reserve(bidders + more)?;
        self.awards.reserve(bidders + more)?;
        self.lasts = self.lasts.max(more);
        Ok(())
    }

    /// One message fewer is to come.
    pub fn take(&mut self)
        ensures { IsTaken self.old self.new }
    {
        if self.lasts > 0 {
            self.lasts -= 1;
        }
    }
}
