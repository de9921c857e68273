//! Tests of the public calls. The bytes of the parcel were spelled by hand from the table of formats.
ghost use Rattle.tb_message.specs.Spelling.{IsInRange};

use std::process::Abort;
use tb_message::{Entry, Message};
use tb_parcel::{Parcel, ParcelFront, put_parcel, read_parcel};
use tb_units::{Ident, Moment};

// The parcel of a first entry: 37 bytes of a record, place 0, and the record.
const FIRST: &[u8] = b"\0\0\0\x25\0\0\0\0\0\0\0\0\
    \x08operator\0\0\0\0\0\0\0\x01\0\0\0\0\x67\x28\x62\xe0\x01\x07dealer1\x02k1";

// The same with one byte more, and the length that says so.
const LONGER: &[u8] = b"\0\0\0\x26\0\0\0\0\0\0\0\0\
    \x08operator\0\0\0\0\0\0\0\x01\0\0\0\0\x67\x28\x62\xe0\x01\x07dealer1\x02k1\0";

// The same, of which the last byte is missing, and the length that says so.
const SHORTER: &[u8] = b"\0\0\0\x24\0\0\0\0\0\0\0\0\
    \x08operator\0\0\0\0\0\0\0\x01\0\0\0\0\x67\x28\x62\xe0\x01\x07dealer1\x02k";

fn name(rt: &impl Abort, text: &str) -> Ident {
    Ident::read(text).expect(rt, "no name")
}

// the operator's first entry, as of a place
fn parcel(rt: &impl Abort, place: u64) -> Parcel {
    Parcel {
        place,
        entry: Entry {
            submitter: name(rt, "operator"),
            number: 1,
            moment: Moment {
                seconds: 1_730_700_000,
            },
            message: Message::Register {
                submitter: name(rt, "dealer1"),
                key: name(rt, "k1"),
            },
        },
    }
}

// the bytes begin with the parcel of this place, and these many are its own
fn whole(rt: &impl Abort, bytes: &[u8], place: u64, size: usize) -> bool {
    read_parcel(bytes) == ParcelFront::Whole(parcel(rt, place), size)
}

// the parcel that the bytes begin with, as of another place
fn placed(rt: &impl Abort, bytes: &[u8], place: u64) -> Parcel
    ensures { IsInRange result.entry }
{
    match read_parcel(bytes) {
        ParcelFront::Whole(parcel, _) => Parcel {
            place,
            entry: parcel.entry,
        },
        _ => panic!(rt; "no parcel"),
    }
}

// the operator's first entry as of this place has these bytes, in which it stands behind the place
fn puts(rt: &impl Abort, place: u64, front: &[u8]) -> bool {
    let put = put_parcel(&placed(rt, FIRST, place));
    let bytes = put.bytes();
    bytes.starts_with(front) && whole(rt, bytes, place, 49)
}

// the first so many of the bytes can't be told yet
fn more(bytes: &[u8], count: usize) -> bool {
    match bytes.split_at_checked(count) {
        Some((front, _)) => read_parcel(front) == ParcelFront::More,
        None => false,
    }
}

fn bad(bytes: &[u8]) -> bool {
    read_parcel(bytes) == ParcelFront::Bad
}

#[test]
fn a_parcel_is_put_and_read(rt: HostRuntime) {
    assert!(rt; whole(&rt, FIRST, 0, 49));
    assert!(rt; puts(&rt, 0, FIRST));
    assert!(rt;
        puts(
            &rt,
            u64::MAX,
            b"\0\0\0\x25\xff\xff\xff\xff\xff\xff\xff\xff\x08operator"
        )
    );
    assert!(rt;
        puts(
            &rt,
            0x0102_0304_0506_0708,
            b"\0\0\0\x25\x01\x02\x03\x04\x05\x06\x07\x08\x08operator"
        )
    );
}

#[test]
fn a_front_is_short_as_long_as_it_may_become_a_parcel(rt: HostRuntime) {
    assert!(rt; more(FIRST, 0));
    assert!(rt; more(FIRST, 3));
    assert!(rt; more(FIRST, 4));
    assert!(rt; more(FIRST, 12));
    assert!(rt; more(FIRST, 48));
    assert!(rt; more(b"\0\0\x02\0", 4));
}

#[test]
fn a_length_or_a_record_may_be_bad(rt: HostRuntime) {
    assert!(rt; bad(b"\0\0\0\0"));
    assert!(rt; bad(b"\0\0\x02\x01"));
    assert!(rt; bad(LONGER));
    assert!(rt; bad(SHORTER));
}
