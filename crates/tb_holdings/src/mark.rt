//! Marks: the pledges of each holder, in order of holder and then number.
ghost use Rattle.std.specs.Prelude.{◌≡◌, ◌+◌, ◌^◌, ◌<◌, ◌≤◌, ◌==◌, None, true, not, filter, All, IfErr, IfOk};
ghost use Rattle.tb_holdings.specs.Marks.{MarkIsMissingAt, MarkStandsAt, MarksAreInOrder, has_left, mark_in, pledged_in, open_marks_in, with_mark, released, cleared, precedes};
ghost use Rattle.tb_units.specs.Places.{IsPlace};

use tb_blocks::{Keyed, Ordered, Spot};
use tb_units::Dollars;

/// What is left of a pledge, of which security, and who may release it.
#[derive(Clone, Copy, Debug, PartialEq, Eq)]
pub struct Mark {
    pub pledgee: u32,
    pub security: u32,
    pub left: Dollars,
}

/// A mark as the book keeps it, under its holder and number. One that was released whole is kept too.
///
/// What is left stands in a plain number here: definitions compute it, and a `Dollars` can't be had of a number alone.
#[derive(Clone, Copy, Debug, PartialEq, Eq)]
pub struct KeptMark {
    pub holder: u32,
    pub number: u64,
    pub pledgee: u32,
    pub security: u32,
    // Whole dollars.
    pub left: u128,
}

impl Keyed for KeptMark {
    type Key = (u32, u64);

    ghost key_of = { λ mark. record { 0 = mark.holder; 1 = mark.number } };

    fn key(&self) -> (u32, u64) {
        (self.holder, self.number)
    }
}

impl KeptMark {
    ghost use Rattle.tb_holdings.specs.Marks.{is_mark, is_own, pledges_par, is_open_of};

    fn is_mark(&self, holder: u32, number: u64) -> bool
        ensures { result ≡ is_mark holder number self.now }
    {
        self.holder == holder && self.number == number
    }

    fn is_own(&self, holder: u32) -> bool
        ensures { result ≡ is_own holder self.now }
    {
        self.holder == holder
    }

    fn pledges_par(&self, holder: u32, security: u32) -> bool
        ensures { result ≡ pledges_par holder security self.now }
    {
        self.holder == holder && self.security == security
    }

    fn is_open_of(&self, holder: u32) -> bool
        ensures { result ≡ is_open_of holder self.now }
    {
        self.holder == holder && self.left > 0
    }
}

// The place of the first mark that doesn't stand before that of this holder and number.
fn mark_place_of(marks: &Ordered<KeptMark>, holder: u32, number: u64) -> usize
    ensures { IsPlace (precedes holder number) marks.now.elements result }
{
    marks.place_of(&(holder, number))
}

// Where the mark stands, or where it would stand.
fn seek_mark(marks: &Ordered<KeptMark>, holder: u32, number: u64) -> Result<usize, usize>
    requires { MarksAreInOrder marks.now.elements }
    ensures stands { IfOk result (MarkStandsAt holder number marks.now.elements) }
    ensures missing { IfErr result (MarkIsMissingAt holder number marks.now.elements) }
{
    let place = mark_place_of(marks, holder, number);
    if place < marks.len() && marks.at(place).is_mark(holder, number) {
        Ok(place)
    } else {
        Err(place)
    }
}

/// The mark of this holder and number, where there is one.
pub fn find_mark(marks: &Ordered<KeptMark>, holder: u32, number: u64) -> Option<KeptMark>
    requires { MarksAreInOrder marks.now.elements }
    ensures { result ≡ mark_in holder number marks.now.elements }
{
    match seek_mark(marks, holder, number) {
        Ok(place) => Some(*marks.at(place)),
        Err(_) => None,
    }
}

// What is left of those marks that are the holder's, and of the security.
fn pledged_among(marks: &[KeptMark], holder: u32, security: u32) -> u128
    requires { pledged_in holder security marks.now < 2 ^ 128 }
    ensures { result ≡ pledged_in holder security marks.now }
{
    marks
        .iter()
        .filter(|mark| mark.pledges_par(holder, security))
        .map(|mark| mark.left)
        .sum()
}

/// What is left of the holder's marks of the security. Its marks stand together; others' in a run with them count for
/// nothing.
pub fn pledged_by(marks: &Ordered<KeptMark>, holder: u32, security: u32) -> u128
    requires in_order { MarksAreInOrder marks.now.elements }
    requires fits { pledged_in holder security marks.now.elements < 2 ^ 128 }
    ensures { result ≡ pledged_in holder security marks.now.elements }
{
    let mut pledged = 0;
    let mut place = mark_place_of(marks, holder, 0);
    while place < marks.len() && marks.at(place).is_own(holder) {
        let run = marks.run_from(place);
        pledged += pledged_among(run, holder, security);
        place += run.len();
    }
    pledged
}

// How many of those marks are the holder's, and have something left.
fn open_among(marks: &[KeptMark], holder: u32) -> u64
    ensures { result ≡ open_marks_in holder marks.now }
{
    marks.iter().filter(|mark| mark.is_open_of(holder)).count() as u64
}

/// How many of the holder's marks have something left. Its marks stand together; others' in a run with them count for
/// nothing.
pub fn open_marks_by(marks: &Ordered<KeptMark>, holder: u32) -> u64
    requires { MarksAreInOrder marks.now.elements }
    ensures { result ≡ open_marks_in holder marks.now.elements }
{
    let mut open = 0;
    let mut place = mark_place_of(marks, holder, 0);
    while place < marks.len() && marks.at(place).is_own(holder) {
        let run = marks.run_from(place);
        open += open_among(run, holder);
        place += run.len();
    }
    open
}

/// Adds a mark at its place.
pub fn add_mark(marks: &mut Ordered<KeptMark>, mark: KeptMark)
    requires in_order { MarksAreInOrder marks.old.elements }
    requires room { 0 < marks.old.spare }
    requires new { mark_in mark.holder mark.number marks.old.elements ≡ None }
    ensures marks { marks.new.elements ≡ with_mark mark marks.old.elements }
    ensures spare { marks.new.spare + 1 ≡ marks.old.spare }
{
    marks.insert(mark);
}

/// Takes so much from what is left of the mark of this holder and number, or all where less is left.
pub fn release_mark(marks: &mut Ordered<KeptMark>, holder: u32, number: u64, par: u128)
    requires { MarksAreInOrder marks.old.elements }
    ensures marks { marks.new.elements ≡ released holder number par marks.old.elements }
    ensures spare { marks.new.spare ≡ marks.old.spare }
{
    if let Ok(place) = seek_mark(marks, holder, number) {
        let mark = *marks.at(place);
        let left = mark.left.saturating_sub(par);
        let _ = marks.replace_at(Spot::at(place), KeptMark { left, ..mark });
    }
}

/// Takes so much from what is left of the mark of this holder and number, and the mark out where nothing is left then.
pub fn lower_mark(marks: &mut Ordered<KeptMark>, holder: u32, number: u64, par: u128)
    requires in_order { MarksAreInOrder marks.old.elements }
    requires left { All (λ mark. has_left mark ≡ true) marks.old.elements }
    ensures marks { marks.new.elements ≡ filter has_left (released holder number par marks.old.elements) }
    ensures spare { marks.new.spare ≡ marks.old.spare }
{
    if let Ok(place) = seek_mark(marks, holder, number) {
        let mark = *marks.at(place);
        let left = mark.left.saturating_sub(par);
        if left > 0 {
            let _ = marks.replace_at(Spot::at(place), KeptMark { left, ..mark });
        } else {
            let _ = marks.remove(&(holder, number));
        }
    }
}

/// Leaves nothing of the marks of the security.
pub fn clear_marks(marks: &mut Ordered<KeptMark>, security: u32)
    ensures marks { marks.new.elements ≡ cleared security marks.old.elements }
    ensures spare { marks.new.spare ≡ marks.old.spare }
{
    for place in 0..marks.len() {
        let mark = *marks.at(place);
        if mark.security == security && mark.left > 0 {
            let _ = marks.replace_at(Spot::at(place), KeptMark { left: 0, ..mark });
        }
    }
}

/// Takes the marks of the security out.
pub fn take_marks(marks: &mut Ordered<KeptMark>, security: u32)
    ensures marks { marks.new.elements ≡ filter (λ mark. not (mark.security == security)) marks.old.elements }
    ensures spare { marks.new.spare ≡ marks.old.spare }
{
    for place in (0..marks.len()).rev() {
        let mark = *marks.at(place);
        if mark.security == security {
            let _ = marks.remove(&(mark.holder, mark.number));
        }
    }
}
