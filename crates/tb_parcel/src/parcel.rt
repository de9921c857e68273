//! Parcels: an entry with its place in a history.
ghost use Rattle.std.specs.Prelude.{◌≡◌, ◌≤◌, length, take};
ghost use Rattle.std.specs.Int.{w32, w64, to_be_bytes};
ghost use Rattle.tb_message.specs.Spelling.{IsInRange};
ghost use Rattle.tb_parcel.specs.Parcels.{parcel_bytes, length_in, IsFront};

use crate::bytes::ParcelBytes;
use tb_message::Entry;

// The longest record.
const LONGEST_RECORD: usize = 512;

/// An entry, and how many entries of its history stand before it.
#[derive(Clone, Copy, Debug, PartialEq, Eq)]
pub struct Parcel {
    pub place: u64,
    pub entry: Entry,
}

/// What bytes begin with.
#[derive(Clone, Copy, Debug, PartialEq, Eq)]
pub enum ParcelFront {
    /// A parcel, of so many bytes.
    Whole(Parcel, usize),
    /// Too few bytes to tell.
    More,
    Bad,
}

/// The bytes of a parcel: four of its record's length, eight of its place, and the record.
pub fn put_parcel(parcel: &Parcel) -> ParcelBytes
    requires { IsInRange parcel.now.entry }
    ensures { result ≡ parcel_bytes parcel.now }
{
    let record = parcel.entry.put();
    let spelling = record.bytes();
    let mut bytes = ParcelBytes::new();
    bytes.push(&(spelling.len() as u32).to_be_bytes());
    bytes.push(&parcel.place.to_be_bytes());
    bytes.push(spelling);
    bytes
}

// The length in the first four bytes.
fn size_in(bytes: &[u8]) -> usize
    requires { 4 ≤ length bytes.now }
    ensures says { result ≡ length_in bytes.now }
    ensures spelled { take 4 bytes.now ≡ to_be_bytes w32 result }
{
    let (head, _) = bytes.split_at(4);
    u32::from_be_bytes([head[0], head[1], head[2], head[3]]) as usize
}

// The place in the first eight bytes.
fn place_in(bytes: &[u8]) -> u64
    requires { 8 ≤ length bytes.now }
    ensures { take 8 bytes.now ≡ to_be_bytes w64 result }
{
    let (head, _) = bytes.split_at(8);
    u64::from_be_bytes([
        head[0], head[1], head[2], head[3], head[4], head[5], head[6], head[7],
    ])
}

/// The parcel that begins the bytes.
pub fn read_parcel(bytes: &[u8]) -> ParcelFront
    ensures { IsFront bytes.now result }
{
    if bytes.len() < 4 {
        return ParcelFront::More;
    }
    let size = size_in(bytes);
    if size < 1 || size > LONGEST_RECORD {
        return ParcelFront::Bad;
    }
    if bytes.len() < 12 + size {
        return ParcelFront::More;
    }
    let (_, rest) = bytes.split_at(4);
    let place = place_in(rest);
    let (_, records) = rest.split_at(8);
    let (record, _) = records.split_at(size);
    let Some((entry, used)) = Entry::take(record) else {
        return ParcelFront::Bad;
    };
    if used != size {
        return ParcelFront::Bad;
    }
    ParcelFront::Whole(Parcel { place, entry }, 12 + size)
}
