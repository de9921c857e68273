//! The call that reads a table.
ghost use Rattle.std.specs.Prelude.{◌≡◌, ◌≤◌, [], ◌∷◌, length, IfOk, OnOk};
ghost use Rattle.indexmap.specs.IndexSet.{insert_key};
ghost use Rattle.tb_import.specs.Rows.{same_row};
ghost use Rattle.tb_import.specs.Tables.{HasRead, header, most_bytes, most_rows};
ghost use Rattle.tb_import.specs.Answers.{AnswersBids, AnswersTable};

use crate::records::{is_header, next, open};
use crate::row::{Row, read_row};
use crate::table::BidTable;
use csv::{ByteRecord, Reader};
use indexmap::IndexSet;
use std::alloc::Global;
use tb_message::Message;
use tb_units::OutOfMemory;

// Rows of a table, at most.
const MOST_ROWS: usize = 999_999;

// Bytes of a text whose lines are counted.
const FRONT: usize = 65_536;

/// Why a table isn't read.
#[derive(Clone, Copy, Debug, PartialEq, Eq)]
pub enum ImportFault {
    /// This record, counted from 1, is the first that isn't of the form. The header is record 1.
    BadRecord(u64),
    /// There was no memory to read it.
    OutOfMemory,
}

impl From<OutOfMemory> for ImportFault {
    ghost use Rattle.std.specs.Prelude.{◌≡◌};
    ghost use Rattle.tb_import.specs.declared.reading.ImportFault.TheVariants as fault;

    ghost from_gives = { λ _ given. given ≡ fault.OutOfMemory };

    fn from(_error: OutOfMemory) -> ImportFault {
        ImportFault::OutOfMemory
    }
}

/// The bids of a table of bids, under their senders' numbers, in the order of its rows; equal rows count once.
///
/// A table has at most 134,217,728 bytes and 999,999 rows, of five fields each.
pub fn read_table(alloc: Global, bytes: &[u8]) -> Result<BidTable, ImportFault>
    ensures { AnswersBids bytes.now result }
{
    if bytes.len() > 134_217_728 {
        return Err(ImportFault::BadRecord(1));
    }
    let mut reader = open(alloc, bytes);
    let mut fields = ByteRecord::new(alloc);
    let found = next(&mut reader, &mut fields)?;
    if !found {
        return Err(ImportFault::BadRecord(1));
    }
    if !is_header(&fields) {
        return Err(ImportFault::BadRecord(1));
    }
    read_rows(alloc, bytes, reader, fields)
}

/// The bids of such a table as a vector, which takes nearly twice the memory of the table.
pub fn read_bids(alloc: Global, bytes: &[u8]) -> Result<Vec<(u64, Message)>, ImportFault>
    ensures { AnswersTable bytes.now result }
{
    let table = read_table(alloc, bytes)?;
    let bids = table.bids(alloc)?;
    Ok(bids)
}

// The rows behind the header.
fn read_rows(
    alloc: Global,
    bytes: &[u8],
    mut reader: Reader<&[u8]>,
    mut fields: ByteRecord,
) -> Result<BidTable, ImportFault>
    requires few { length bytes.now ≤ most_bytes }
    requires begun { HasRead bytes.now (header ∷ []) reader }
    ensures { AnswersBids bytes.now result }
{
    let mut rows = no_rows(alloc, bytes)?;
    for place in 2..1_000_001u64 {
        let found = next(&mut reader, &mut fields)?;
        if !found {
            return Ok(BidTable::of(rows));
        }
        let Some(row) = read_row(&fields) else {
            return Err(ImportFault::BadRecord(place));
        };
        add(&mut rows, row)?;
    }
    let more = next(&mut reader, &mut fields)?;
    if more {
        return Err(ImportFault::BadRecord(1_000_001));
    }
    Ok(BidTable::of(rows))
}

// No rows, with room for those that the text seems to have, so that the set isn't moved again and again as it grows.
fn no_rows(alloc: Global, bytes: &[u8]) -> Result<IndexSet<Row>, OutOfMemory>
    requires { length bytes.now ≤ most_bytes }
    ensures { IfOk result (λ rows. rows.keys ≡ []) }
{
    let rows = IndexSet::with_capacity(alloc, likely_rows(bytes))?;
    Ok(rows)
}

// How many rows a text has whose lines are as long as those of its front; at most as many as a table may have.
fn likely_rows(bytes: &[u8]) -> usize
    requires { length bytes.now ≤ most_bytes }
    ensures { result ≤ most_rows }
{
    let front = &bytes[..bytes.len().min(FRONT)];
    let lines = front.iter().filter(|byte| **byte == b'\n').count();
    (lines * (bytes.len() / FRONT + 1)).min(MOST_ROWS)
}

// Keeps a row where it is the first of its kind.
fn add(rows: &mut IndexSet<Row>, row: Row) -> Result<(), OutOfMemory>
    ensures { OnOk result (rows.new.keys ≡ insert_key same_row rows.old.keys row) }
{
    rows.insert(row)?;
    Ok(())
}
