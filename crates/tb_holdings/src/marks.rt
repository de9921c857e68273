//! The marks of all holders, and beside them those of which something is left.
ghost use Rattle.std.specs.Prelude.{◌≡◌, ◌+◌, ◌^◌, ◌<◌, ◌≤◌, [], None, OnOk};
ghost use Rattle.tb_holdings.specs.Marks.{mark_in, pledged_in, open_marks_in, with_mark, released, cleared};

use crate::mark::{
    KeptMark, add_mark, clear_marks, find_mark, lower_mark, open_marks_by, pledged_by,
    release_mark, take_marks,
};
use std::alloc::Global;
use std::marker::Model;
use tb_blocks::Ordered;
use tb_units::OutOfMemory;

/// The marks, in order of holder and number. Contracts see their list, and how many adds are sure.
///
/// What a holder pledged is added up over its open marks alone, which its quota keeps few.
#[derive(Drop)]
pub struct Marks {
    all: Ordered<KeptMark>,
    // Those of which something is left.
    live: Ordered<KeptMark>,
}

impl Model for Marks {
    ghost use Rattle.std.specs.Prelude.{◌≡◌, min, filter};
    ghost use Rattle.tb_holdings.specs.Marks.{MarkList, MarksAreInOrder, has_left};

    ghost Value = { MarkList };

    ghost view = { λ marks. record {
      list = marks.all.elements;
      spare = min marks.all.spare marks.live.spare;
    } };

    ghost invariant = { λ marks. MarksAreInOrder marks.all.elements
        × (marks.live.elements ≡ filter has_left marks.all.elements) };
}

impl Marks {
    /// No marks, which take no memory.
    pub fn new(alloc: Global) -> Marks
        ensures list { result.list ≡ [] }
        ensures spare { result.spare ≡ 0 }
    {
        Marks {
            all: Ordered::new(alloc),
            live: Ordered::new(alloc),
        }
    }

    /// Makes so many adds sure. No other call takes memory.
    pub fn reserve(&mut self, more: usize) -> Result<(), OutOfMemory>
        ensures spare { OnOk result (more ≤ self.new.spare) }
        // The marks stay, and no room is lost, whatever the result.
        ensures list { self.new.list ≡ self.old.list }
        ensures room { self.old.spare ≤ self.new.spare }
    {
        self.all.reserve(more)?;
        self.live.reserve(more)?;
        Ok(())
    }

    /// Adds a mark at its place.
    pub fn add(&mut self, mark: KeptMark)
        requires room { 0 < self.old.spare }
        requires new { mark_in mark.holder mark.number self.old.list ≡ None }
        requires left { 0 < mark.left }
        ensures list { self.new.list ≡ with_mark mark self.old.list }
        ensures room { self.old.spare ≤ self.new.spare + 1 }
    {
        add_mark(&mut self.all, mark);
        add_mark(&mut self.live, mark);
    }

    /// Takes so much from what is left of the mark of this holder and number, or all where less is left.
    pub fn release(&mut self, holder: u32, number: u64, par: u128)
        ensures list { self.new.list ≡ released holder number par self.old.list }
        ensures room { self.old.spare ≤ self.new.spare }
    {
        release_mark(&mut self.all, holder, number, par);
        lower_mark(&mut self.live, holder, number, par);
    }

    /// Leaves nothing of the marks of the security.
    pub fn clear(&mut self, security: u32)
        ensures list { self.new.list ≡ cleared security self.old.list }
        ensures room { self.old.spare ≤ self.new.spare }
    {
        clear_marks(&mut self.all, security);
        take_marks(&mut self.live, security);
    }

    /// The mark of this holder and number, where there is one.
    pub fn find(&self, holder: u32, number: u64) -> Option<KeptMark>
        ensures { result ≡ mark_in holder number self.now.list }
    {
        find_mark(&self.all, holder, number)
    }

    /// What is left of the holder's marks of the security.
    pub fn pledged(&self, holder: u32, security: u32) -> u128
        requires { pledged_in holder security self.now.list < 2 ^ 128 }
        ensures { result ≡ pledged_in holder security self.now.list }
    {
        pledged_by(&self.live, holder, security)
    }

    /// How many of the holder's marks have something left.
    pub fn open_marks(&self, holder: u32) -> u64
        ensures { result ≡ open_marks_in holder self.now.list }
    {
        open_marks_by(&self.live, holder)
    }
}
