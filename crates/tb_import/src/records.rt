//! Records of a table, one after another.
ghost use Rattle.std.specs.Prelude.{◌≡◌, ℕ, List, [], ◌∷◌, ◌++◌, length, true, false, IfOk, IfSome, IfNone, MatchBool};
ghost use Rattle.csv.specs.Records.{fields_of};
ghost use Rattle.tb_import.specs.Rows.{Fields};
ghost use Rattle.tb_import.specs.Tables.{AreRecordsOf, HasRead, header};
ghost use Rattle.tb_import.specs.Parts.{five_fields};

use csv::{ByteRecord, Reader, ReaderBuilder};
use std::alloc::Global;
use tb_units::OutOfMemory;

/// A reader of the records of bytes, of any number of fields.
pub(crate) fn open(alloc: Global, bytes: &[u8]) -> Reader<&[u8]>
    ensures { HasRead bytes.now [] result }
{
    ReaderBuilder::new()
        .has_headers(false)
        .flexible(true)
        .from_reader(alloc, bytes)
}

/// Reads the next record, if there is one. Over bytes in memory no reading fails but for memory.
pub(crate) fn next(reader: &mut Reader<&[u8]>, fields: &mut ByteRecord) -> Result<bool, OutOfMemory>
    ensures { IfOk result (λ found. (bytes : List ℕ) (records : List Fields) → HasRead bytes records reader.old
        → MatchBool found
        (HasRead bytes (records ++ fields_of fields.new ∷ []) reader.new)
        (AreRecordsOf bytes records)) }
{
    let Ok(found) = reader.read_byte_record(fields) else {
        return Err(OutOfMemory);
    };
    Ok(found)
}

/// The five fields of a record.
#[derive(Clone, Copy, Debug)]
pub(crate) struct Five<'a> {
    pub(crate) number: &'a [u8],
    pub(crate) auction: &'a [u8],
    pub(crate) bidder: &'a [u8],
    pub(crate) rate: &'a [u8],
    pub(crate) amount: &'a [u8],
}

/// The fields of a record of five.
pub(crate) fn five_of(fields: &ByteRecord) -> Option<Five<'_>>
    ensures five { IfSome result (λ five. fields_of fields.now ≡ five_fields five) }
    ensures other { IfNone result (¬ (length (fields_of fields.now) ≡ 5)) }
{
    if fields.len() != 5 {
        return None;
    }
    let number = fields.get(0)?;
    let auction = fields.get(1)?;
    let bidder = fields.get(2)?;
    let rate = fields.get(3)?;
    let amount = fields.get(4)?;
    Some(Five {
        number,
        auction,
        bidder,
        rate,
        amount,
    })
}

/// Whether a record is the header of a table.
pub(crate) fn is_header(fields: &ByteRecord) -> bool
    ensures yes { result ≡ true → fields_of fields.now ≡ header }
    ensures no { result ≡ false → ¬ (fields_of fields.now ≡ header) }
{
    match five_of(fields) {
        None => false,
        Some(five) => {
            five.number == b"number".as_slice()
                && five.auction == b"auction".as_slice()
                && five.bidder == b"bidder".as_slice()
                && five.rate == b"rate".as_slice()
                && five.amount == b"amount".as_slice()
        }
    }
}
