//! Empty books, with room for lines.
ghost use Rattle.std.specs.Prelude.{◌≡◌, ℕ, ◌+◌, ◌≤◌, [], length, vec_len, IfOk, OnOk};
ghost use Rattle.tb_shelf.specs.Shelves.{AreReady, IsReady};

use std::alloc::Global;
use tb_book::Book;
use tb_units::OutOfMemory;

// An empty book, which is sealed, with room for so many lines.
fn prepared(alloc: Global, places: u64) -> Result<Book, OutOfMemory>
    ensures { IfOk result (IsReady places) }
{
    let mut book = Book::sealed(alloc);
    book.reserve(places)?;
    Ok(book)
}

// Gives each book so many places.
fn raise(ready: &mut [Book], places: u64) -> Result<(), OutOfMemory>
    requires { AreReady 0 ready.old }
    ensures places { OnOk result (AreReady places ready.new) }
    ensures kept { (few : ℕ) → AreReady few ready.old → AreReady few ready.new }
    ensures length { length ready.new ≡ length ready.old }
{
    for place in 0..ready.len() {
        ready[place].reserve(places)?;
    }
    Ok(())
}

/// Gives each empty book so many places.
pub fn raise_all(ready: &mut Vec<Book>, places: u64) -> Result<(), OutOfMemory>
    requires { AreReady 0 ready.old.items }
    ensures places { OnOk result (AreReady places ready.new.items) }
    // No book loses places, whatever the result.
    ensures kept { (few : ℕ) → AreReady few ready.old.items → AreReady few ready.new.items }
    ensures length { vec_len ready.new ≡ vec_len ready.old }
{
    raise(ready, places)
}

/// Adds so many empty books of so many places.
pub fn fill(
    ready: &mut Vec<Book>,
    missing: usize,
    alloc: Global,
    places: u64,
) -> Result<(), OutOfMemory>
    requires { AreReady places ready.old.items }
    ensures filled { OnOk result (vec_len ready.new ≡ vec_len ready.old + missing) }
    // Each has its places, and none is lost, whatever the result.
    ensures places { AreReady places ready.new.items }
    ensures kept { vec_len ready.old ≤ vec_len ready.new }
    ensures few { vec_len ready.new ≤ vec_len ready.old + missing }
{
    for _ in 0..missing {
        let book = prepared(alloc, places)?;
        ready.push(book)?;
    }
    Ok(())
}
