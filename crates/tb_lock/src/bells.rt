//! Where the threads sleep that wait for their turns.
use std::array;
use std::sync::Wait;
use std::sync::atomic::{AtomicU64, Ordering};

const BELLS: usize = 64;

// A bell for each of 64 tickets in a row, and for those that follow the same again. Its word is how often it has rung.
#[derive(Drop)]
pub(crate) struct Bells {
    words: [AtomicU64; BELLS],
}

impl Bells {
    pub(crate) fn new() -> Bells {
        Bells {
            words: array::from_fn(|_| AtomicU64::new(0)),
        }
    }

    // How often the ticket's bell has rung.
    pub(crate) fn rung(&self, ticket: u64) -> u64 {
        self.words[(ticket % 64) as usize].load(Ordering::SeqCst)
    }

    // Sleeps until the ticket's bell rings, unless it has rung more often than that by now.
    pub(crate) fn sleep<R: Wait>(&self, rt: &R, ticket: u64, rung: u64) {
        self.words[(ticket % 64) as usize].park(rt, (rung % (1 << 32)) as u32);
    }

    // Wakes those that sleep until the ticket's bell rings.
    pub(crate) fn ring(&self, ticket: u64) {
        let word = &self.words[(ticket % 64) as usize];
        word.fetch_add(1, Ordering::SeqCst);
        word.wake_all();
    }
}
