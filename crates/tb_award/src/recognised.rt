//! Recognised lines, and the room for them.
ghost use Rattle.std.specs.Prelude.{◌≡◌, ◌<◌, ◌≤◌, [], length, slice_index_or, All, OnOk, IsOk};
ghost use Rattle.std.specs.List.{AllPairs};
ghost use Rattle.tb_award.specs.Recognition.{IsEarlier};
ghost use Rattle.tb_award.specs.Room.{KeepsRoom};

use std::alloc::Global;
use std::marker::Model;
use tb_units::{OutOfMemory, RateLine};

/// What is recognised of the bids of an auction: a line for each bidder and rate at which something is, in rising rate,
/// then bidder. Contracts see the lines, and for how many lines and bidders there is room.
#[derive(Drop)]
pub struct Recognised {
    pub(crate) lines: Vec<RateLine>,
    // How much was recognised of each bidder so far, while the lines are made.
    pub(crate) taken: Vec<u128>,
}

impl Model for Recognised {
    ghost use Rattle.std.specs.Prelude.{◌<◌, All, vec_capacity};
    ghost use Rattle.std.specs.List.{AllPairs};
    ghost use Rattle.tb_award.specs.Recognition.{IsEarlier};
    ghost use Rattle.tb_award.specs.Room.{Recognition};

    ghost Value = { Recognition };

    ghost view = { λ r. record {
      lines = r.lines.items;
      line_room = vec_capacity r.lines;
      bidder_room = vec_capacity r.taken;
    } };

    ghost invariant = { λ r. AllPairs IsEarlier r.lines.items × All (λ line. 0 < line.amount.value) r.lines.items };
}

impl Recognised {
    /// Nothing recognised, and no room.
    pub fn empty(alloc: Global) -> Recognised
        ensures { result.lines ≡ [] }
    {
        Recognised {
            lines: Vec::new(alloc),
            taken: Vec::new(alloc),
        }
    }

    /// Takes the memory for so many lines and bidders. The lines stay, and no room is lost, whatever the result.
    pub fn reserve(&mut self, lines: u64, bidders: u64) -> Result<(), OutOfMemory>
        ensures line_room { OnOk result (lines ≤ self.new.line_room) }
        ensures bidder_room { OnOk result (bidders ≤ self.new.bidder_room) }
        // Where the room is there already it succeeds.
        ensures there { lines ≤ self.old.line_room → bidders ≤ self.old.bidder_room → IsOk result }
        ensures lines { self.new.lines ≡ self.old.lines }
        ensures room { KeepsRoom self.old self.new }
    {
        self.lines
            .reserve((lines as usize).saturating_sub(self.lines.len()))?;
        self.taken
            .reserve((bidders as usize).saturating_sub(self.taken.len()))?;
        Ok(())
    }

    pub(crate) fn as_slice(&self) -> &[RateLine]
        ensures lines { result.now ≡ self.now.lines }
        ensures order { AllPairs IsEarlier self.now.lines }
        ensures amounts { All (λ line. 0 < line.amount.value) self.now.lines }
    {
        &self.lines
    }

    /// How many lines there are.
    pub fn count(&self) -> u64
        ensures { result ≡ length self.now.lines }
    {
        self.lines.len() as u64
    }

    /// The line at a place, counted from 0.
    pub fn line(&self, place: u64) -> RateLine
        requires { place < length self.now.lines }
        ensures { slice_index_or self.now.lines place result ≡ result }
    {
        self.lines[place as usize]
    }
}
