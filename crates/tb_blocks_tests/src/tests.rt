//! Tests of the public calls.
use std::alloc::Global;
use std::process::Abort;
use tb_blocks::*;

// The next number of a row of mixed ones.
fn next(seed: usize) -> usize {
    seed.wrapping_mul(6364136223846793005)
        .wrapping_add(1442695040888963407)
}

// A place below the count, taken from the seed.
fn place_below(seed: usize, count: usize) -> usize {
    if count == 0 { 0 } else { (seed >> 33) % count }
}

fn has_same_elements(list: &Blocks<u64>, plain: &Vec<u64>) -> bool {
    for place in 0..list.len() {
        if Some(list.at(place)) != plain.get(place) {
            return false;
        }
    }
    list.len() == plain.len()
}

// The runs, one behind the other, begin and end with the elements of their places.
fn has_same_runs(list: &Blocks<u64>, plain: &Vec<u64>) -> bool {
    let mut place = 0usize;
    for _ in 0..list.len() {
        if place >= list.len() {
            return true;
        }
        let run = list.run_from(place);
        let first = run.first() == plain.get(place);
        place = place.saturating_add(run.len());
        if !first || run.last() != plain.get(place.saturating_sub(1)) {
            return false;
        }
    }
    true
}

fn insert(list: &mut Blocks<u64>, plain: &mut Vec<u64>, seed: usize, element: u64) -> bool {
    let place = place_below(seed, plain.len() + 1);
    if list.reserve(1).is_err() || place > list.len() || place > plain.len() {
        return false;
    }
    list.insert_at(Spot::at(place), element);
    plain.insert(place, element).is_ok()
}

// Whether the element that is replaced is the same.
fn replace(list: &mut Blocks<u64>, plain: &mut Vec<u64>, seed: usize, element: u64) -> bool {
    let place = place_below(seed, plain.len());
    if place >= list.len() || place >= plain.len() {
        return false;
    }
    let same = list.replace_at(Spot::at(place), element) == plain[place];
    plain[place] = element;
    same
}

// Whether the element that is removed is the same.
fn remove(list: &mut Blocks<u64>, plain: &mut Vec<u64>, seed: usize) -> bool {
    let place = place_below(seed, plain.len());
    place < list.len()
        && place < plain.len()
        && list.remove_at(Spot::at(place)) == plain.remove(place)
}

#[test]
fn a_list_in_blocks_is_as_a_vector(rt: HostRuntime) {
    let mut list = Blocks::new(rt.alloc());
    let mut plain = Vec::new(rt.alloc());
    let mut seed = 1;
    for step in 0..6000u64 {
        seed = next(seed);
        assert!(rt; insert(&mut list, &mut plain, seed, step));
    }
    assert!(rt; has_same_elements(&list, &plain) && has_same_runs(&list, &plain));
    for step in 0..5000u64 {
        seed = next(seed);
        if step % 3 == 0 {
            assert!(rt; replace(&mut list, &mut plain, seed, step));
        } else {
            assert!(rt; remove(&mut list, &mut plain, seed));
        }
    }
    assert!(rt; has_same_elements(&list, &plain) && has_same_runs(&list, &plain));
}

#[derive(Clone, Copy, Debug, Drop, PartialEq, Eq)]
struct Loan {
    number: u64,
    par: u64,
}

impl Keyed for Loan {
    type Key = u64;

    ghost key_of = { λ loan. loan.number };

    fn key(&self) -> u64 {
        self.number
    }
}

// In order of the year, and in one year from the highest page to the lowest.
#[derive(Clone, Copy, Debug, Drop, PartialEq, Eq)]
struct Note {
    year: u32,
    page: u32,
}

impl Keyed for Note {
    type Key = (u32, std::cmp::Reverse<u32>);

    ghost key_of = { λ note. record { 0 = note.year; 1 = record { 0 = note.page } } };

    fn key(&self) -> (u32, std::cmp::Reverse<u32>) {
        (self.year, std::cmp::Reverse(self.page))
    }
}

// Adds the element, if no other has its key.
fn add<T: Keyed + Copy + Drop>(list: &mut Ordered<T>, element: T) -> bool {
    if list.reserve(1).is_err() {
        return false;
    }
    let key = element.key();
    if list.find(&key).is_some() {
        return false;
    }
    list.insert(element);
    true
}

fn loan_of(step: u32) -> Loan {
    let step = u64::from(step);
    Loan {
        number: step * 1999 % 5003,
        par: step,
    }
}

// Whether the loan of a step is added, and no other of its number after it.
fn comes_once(loans: &mut Ordered<Loan>, step: u32) -> bool {
    let loan = loan_of(step);
    let again = Loan {
        number: loan.number,
        par: 0,
    };
    add(loans, loan) && !add(loans, again)
}

fn goes_once(loans: &mut Ordered<Loan>, step: u32) -> bool {
    let loan = loan_of(step);
    loans.remove(&loan.number) == Some(loan) && loans.remove(&loan.number).is_none()
}

// The loans of 5,000 steps. Their numbers are remainders of 5,003, each once.
fn five_thousand_loans<R: AllocGlobal + Abort>(rt: &R) -> Ordered<Loan> {
    let mut loans = Ordered::new(rt.alloc());
    for step in 0..5000u32 {
        assert!(rt; comes_once(&mut loans, step));
    }
    loans
}

fn is_in_order(loans: &Ordered<Loan>) -> bool {
    for place in 1..loans.len() {
        if loans.at(place - 1).number >= loans.at(place).number {
            return false;
        }
    }
    true
}

fn place_of_loan(loans: &Ordered<Loan>, number: u64) -> Option<usize> {
    Some(loans.find(&number)?.place)
}

#[test]
fn loans_stand_in_the_order_of_their_numbers(rt: HostRuntime) {
    let loans = five_thousand_loans(&rt);
    assert!(rt; loans.len() == 5000 && is_in_order(&loans));
    // Of the numbers below 5,003 the remainders of 1,999 times 5,000, 5,001 and 5,002 are missing: 4,009, 1,005, 3,004.
    assert!(rt; place_of_loan(&loans, 1004) == Some(1004));
    assert!(rt; place_of_loan(&loans, 1005) == None);
    assert!(rt; place_of_loan(&loans, 3005) == Some(3003));
    assert!(rt; loans.place_of(&5003) == 5000);
}

#[test]
fn loans_are_removed_by_their_numbers(rt: HostRuntime) {
    let mut loans = five_thousand_loans(&rt);
    for step in 0..5000u32 {
        assert!(rt; goes_once(&mut loans, step));
    }
    assert!(rt; loans.len() == 0);
    let old = Loan {
        number: 5002,
        par: 4999,
    };
    assert!(rt; add(&mut loans, old));
    assert!(rt; loans.remove(&5002) == Some(old));
}

// Five notes, added in another order than theirs.
fn five_notes<R: AllocGlobal + Abort>(rt: &R) -> Ordered<Note> {
    let mut notes = Ordered::new(rt.alloc());
    assert!(rt; add_note(&mut notes, 2026, 1));
    assert!(rt; add_note(&mut notes, 2025, 7));
    assert!(rt; add_note(&mut notes, 2026, 3));
    assert!(rt; add_note(&mut notes, 2025, 9));
    assert!(rt; add_note(&mut notes, 2026, 2));
    notes
}

fn add_note(notes: &mut Ordered<Note>, year: u32, page: u32) -> bool {
    add(notes, Note { year, page })
}

// Whether the note of this year and page stands at the place of a run.
fn stands_at(run: &[Note], place: usize, year: u32, page: u32) -> bool {
    run.get(place) == Some(&Note { year, page })
}

// Where the note of this year and page stands.
fn place_of(notes: &Ordered<Note>, year: u32, page: u32) -> Option<usize> {
    Some(notes.find(&Note { year, page }.key())?.place)
}

#[test]
fn notes_stand_by_year_and_last_page_first(rt: HostRuntime) {
    let notes = five_notes(&rt);
    assert!(rt; notes.len() == 5);
    let run = notes.run_from(0);
    assert!(rt; run.len() == 5);
    assert!(rt; stands_at(run, 0, 2025, 9));
    assert!(rt; stands_at(run, 1, 2025, 7));
    assert!(rt; stands_at(run, 2, 2026, 3));
    assert!(rt; stands_at(run, 3, 2026, 2));
    assert!(rt; stands_at(run, 4, 2026, 1));
    assert!(rt; place_of(&notes, 2026, 3) == Some(2));
    assert!(rt; place_of(&notes, 2026, 4) == None);
}

#[test]
fn a_note_is_removed_from_between_others(rt: HostRuntime) {
    let mut notes = five_notes(&rt);
    let old = Note {
        year: 2025,
        page: 7,
    };
    assert!(rt; notes.remove(&old.key()) == Some(old));
    assert!(rt; notes.len() == 4);
    let run = notes.run_from(1);
    assert!(rt; run.len() == 3);
    assert!(rt; stands_at(run, 0, 2026, 3));
    assert!(rt; stands_at(run, 1, 2026, 2));
    assert!(rt; stands_at(run, 2, 2026, 1));
}

#[test]
fn want_of_memory_leaves_the_list(rt: HostRuntime) {
    let mut list = Blocks::new(rt.alloc());
    for step in 0..1000u64 {
        assert!(rt; list.reserve(1).is_ok());
        list.insert_at(Spot::at(0), step);
    }
    assert!(rt; list.reserve(usize::MAX).is_err());
    // It succeeds, or fails where an allocation is made to fail.
    let _ = list.reserve(5000);
    assert!(rt; list.len() == 1000 && *list.at(999) == 0);
    assert!(rt; list.remove_at(Spot::at(0)) == 999);
}
