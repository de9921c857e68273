//! Tests of the history as it is read group by group, and of what stands in it.
use crate::tests::{desk_on, disk_of, moment};
use std::alloc::Global;
use std::process::Abort;
use tb_desk::{Desk, Remains};
use tb_journal::Window;
use tb_message::Entry;

// A journal of two entries, each in a frame of its own: dealer1 is registered, and fund1 is enrolled with it.
const TWO: &[u8] = b"TBHOSTJOURNAL002\x01\
    \x01\0\0\0\x25\0\0\0\0\0\0\0\0\
    \x08operator\0\0\0\0\0\0\0\x01\0\0\0\0\x67\x28\x62\xe0\x01\x07dealer1\x02k1\
    \x01\0\0\0\x28\0\0\0\0\0\0\0\x01\
    \x08operator\0\0\0\0\0\0\0\x02\0\0\0\0\x67\x28\x62\xe0\x02\x05fund1\x07dealer1\
    \0";

// Whether both payloads are read one after the other, and then none.
fn is_walked(rt: &impl Abort, alloc: Global) -> bool {
    let disk = disk_of(rt, alloc, TWO, &[], 0);
    let Ok(mut desk) = Desk::open(alloc, disk) else {
        return false;
    };
    let mut window = Window::new();
    let first = desk.first_place();
    let Ok(Some((37, second))) = desk.next_group(first, &mut window) else {
        return false;
    };
    if first != 17 || second != 67 || window.payload() != &TWO[30..67] {
        return false;
    }
    let Ok(Some((40, gate))) = desk.next_group(second, &mut window) else {
        return false;
    };
    if gate != 120 || window.payload() != &TWO[80..120] {
        return false;
    }
    matches!(desk.next_group(gate, &mut window), Ok(None))
}

#[test]
fn the_groups_are_read_in_their_order(rt: HostRuntime) {
    assert!(rt; is_walked(&rt, rt.alloc()));
}

// The entry of a record.
fn entry_of(rt: &impl Abort, record: &[u8]) -> Entry {
    match Entry::take(record) {
        Some((entry, _)) => entry,
        None => panic!(rt; "no record"),
    }
}

#[test]
fn an_entry_stands_as_it_is(rt: HostRuntime) {
    let desk = desk_on(&rt, rt.alloc(), TWO);
    let enrolled = entry_of(&rt, &TWO[80..120]);
    let mut later = enrolled;
    later.moment = moment(&rt, 1_730_700_001);
    let mut another = enrolled;
    another.number = 3;
    let mut reused = enrolled;
    reused.number = 1;
    assert!(rt; desk.stands(&entry_of(&rt, &TWO[30..67])));
    assert!(rt; desk.stands(&enrolled));
    assert!(rt; !desk.stands(&later));
    assert!(rt; !desk.stands(&another));
    assert!(rt; !desk.stands(&reused));
}

// What remains behind the gate of a file.
fn remains_in(rt: &impl Abort, alloc: Global, file: &[u8]) -> Option<Remains> {
    let disk = disk_of(rt, alloc, file, &[], 0);
    let Ok(mut desk) = Desk::open(alloc, disk) else {
        return None;
    };
    desk.remains().ok()
}

// With the first gate closed both frames stand behind it, and with the second one alone.
#[test]
fn what_remains_behind_a_gate_is_found(rt: HostRuntime) {
    let alloc = rt.alloc();
    let mut file = TWO.to_vec(alloc).expect(&rt, "memory");
    assert!(rt; remains_in(&rt, alloc, &file) == Some(Remains::Nothing));
    assert_eq!(rt; file.len(), 121);
    file[67] = 0;
    assert!(rt; remains_in(&rt, alloc, &file) == Some(Remains::TornAppend));
    file[17] = 0;
    assert!(rt; remains_in(&rt, alloc, &file) == Some(Remains::Damage(17)));
    // A record that is none: its submitter's name has a capital.
    file[81] = b'O';
    assert!(rt; remains_in(&rt, alloc, &file) == Some(Remains::TornAppend));
}
