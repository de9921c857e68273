//! Bytes that are made to harm: in the journal, in a script and in a table.
use crate::auction::{ANNOUNCE, EMPTY, ENROL, FIRST_LINE, REGISTER, RUN, SEND, journal};
use crate::link_tests::SERVE;
use crate::trying::{
    Host, Outcome, SPARE, disk_of, is_ended, joined, one_gate, repeated, run, serve, takes, whole,
};
use std::process::Abort;
use std::sync::Wait;
use std::thread::Threads;

const IMPORT: [&str; 5] = ["import", "--op", "root", "--key", "k1"];

const REPORT: [&str; 6] = ["report", "holdings", "--op", "root", "--key", "k1"];

const TAKE: [&str; 2] = ["follow", "take"];

const FILE: [&str; 1] = ["register"];

// The command on these contents ends with 8 and tells this, and the contents stay.
fn is_damaged<R: Abort + Threads + Wait + Sync>(
    host: &Host<'_, R>,
    words: &[&str],
    contents: &[u8],
    told: &str,
) -> bool {
    let run = run(host, words, FIRST_LINE, disk_of(host, contents));
    is_ended(&run, 8, b"", told) && run.disk.contents() == contents
}

// The same of `serve`, whose link stays at its gate.
fn is_unserved<R: Abort + Threads + Wait + Sync>(
    host: &Host<'_, R>,
    contents: &[u8],
    told: &str,
) -> bool {
    let gates = one_gate(host, &[whole("GET /holdings HTTP/1.1\r\n\r\n")]);
    let run = serve(host, &SERVE, "", disk_of(host, contents), gates);
    is_ended(&run, 8, b"", told) && run.disk.contents() == contents && takes(&run, 0, &[])
}

// A title, and these bytes behind it.
fn behind_title<R: Abort>(host: &Host<'_, R>, title: &[u8], pieces: &[&[u8]]) -> Vec<u8> {
    let mut file = title.to_vec(host.alloc).expect(host.rt, "memory");
    for bytes in pieces {
        file.extend_from_slice(bytes).expect(host.rt, "memory");
    }
    file
}

// The title, the seal, and these bytes behind them.
fn behind_the_seal<R: Abort>(host: &Host<'_, R>, pieces: &[&[u8]]) -> Vec<u8> {
    behind_title(host, b"TBHOSTJOURNAL002\x01", pieces)
}

// An open gate, the length of the record and the number of frames before it: with the record the frame of the first
// entry, from 17 up to 67.
const HEAD: &[u8] = b"\x01\0\0\0\x25\0\0\0\0\0\0\0\0";

#[test]
fn a_frame_that_stands_twice_is_damage_at_67(rt: HostRuntime) {
    let host = Host {
        rt: &rt,
        alloc: rt.alloc(),
    };
    let twice = behind_the_seal(&host, &[HEAD, REGISTER, HEAD, REGISTER, b"\0"]);
    assert!(rt; is_damaged(&host, &RUN, &twice, "damaged at 67\n"));
    assert!(rt; is_damaged(&host, &IMPORT, &twice, "damaged at 67\n"));
    assert!(rt; is_damaged(&host, &REPORT, &twice, "damaged at 67\n"));
    assert!(rt; is_damaged(&host, &SEND, &twice, "damaged at 67\n"));
    assert!(rt; is_damaged(&host, &TAKE, &twice, "damaged at 67\n"));
    assert!(rt; is_damaged(&host, &FILE, &twice, "damaged at 67\n"));
    assert!(rt; is_unserved(&host, &twice, "damaged at 67\n"));
}

#[test]
fn a_length_of_0_is_damage_at_17(rt: HostRuntime) {
    let host = Host {
        rt: &rt,
        alloc: rt.alloc(),
    };
    let none: &[u8] = b"\x01\0\0\0\0\0\0\0\0\0\0\0\0";
    let empty = behind_the_seal(&host, &[none, REGISTER, b"\0"]);
    assert!(rt; is_damaged(&host, &RUN, &empty, "damaged at 17\n"));
    assert!(rt; is_damaged(&host, &IMPORT, &empty, "damaged at 17\n"));
    assert!(rt; is_damaged(&host, &REPORT, &empty, "damaged at 17\n"));
    assert!(rt; is_damaged(&host, &SEND, &empty, "damaged at 17\n"));
    assert!(rt; is_damaged(&host, &TAKE, &empty, "damaged at 17\n"));
    assert!(rt; is_damaged(&host, &FILE, &empty, "damaged at 17\n"));
    assert!(rt; is_unserved(&host, &empty, "damaged at 17\n"));
}

// The head of a frame, so many letters in place of its payload, and a closed gate.
fn with_letters<R: Abort>(host: &Host<'_, R>, head: &[u8], count: u64) -> Vec<u8> {
    let letters = repeated(host, "x", count);
    let mut file = behind_the_seal(host, &[head]);
    file.extend_from_slice(letters.as_bytes())
        .expect(host.rt, "memory");
    file.push(0).expect(host.rt, "memory");
    file
}

// As many bytes as the length says may stand behind it.
#[test]
fn a_length_of_32769_is_damage_at_17(rt: HostRuntime) {
    let host = Host {
        rt: &rt,
        alloc: rt.alloc(),
    };
    let head: &[u8] = b"\x01\0\0\x80\x01\0\0\0\0\0\0\0\0";
    let short = behind_the_seal(&host, &[head, REGISTER, b"\0"]);
    let filled = with_letters(&host, head, 32_769);
    assert!(rt; is_damaged(&host, &RUN, &short, "damaged at 17\n"));
    assert!(rt; is_damaged(&host, &RUN, &filled, "damaged at 17\n"));
    assert!(rt; is_damaged(&host, &IMPORT, &short, "damaged at 17\n"));
    assert!(rt; is_damaged(&host, &REPORT, &short, "damaged at 17\n"));
    assert!(rt; is_damaged(&host, &SEND, &short, "damaged at 17\n"));
    assert!(rt; is_damaged(&host, &TAKE, &short, "damaged at 17\n"));
    assert!(rt; is_damaged(&host, &FILE, &short, "damaged at 17\n"));
    assert!(rt; is_unserved(&host, &short, "damaged at 17\n"));
}

// The length is then 38.
#[test]
fn a_byte_more_in_the_payload_is_damage_at_17(rt: HostRuntime) {
    let host = Host {
        rt: &rt,
        alloc: rt.alloc(),
    };
    let head: &[u8] = b"\x01\0\0\0\x26\0\0\0\0\0\0\0\0";
    let longer = behind_the_seal(&host, &[head, REGISTER, b"x\0"]);
    assert!(rt; is_damaged(&host, &RUN, &longer, "damaged at 17\n"));
    assert!(rt; is_damaged(&host, &IMPORT, &longer, "damaged at 17\n"));
    assert!(rt; is_damaged(&host, &REPORT, &longer, "damaged at 17\n"));
    assert!(rt; is_damaged(&host, &SEND, &longer, "damaged at 17\n"));
    assert!(rt; is_damaged(&host, &TAKE, &longer, "damaged at 17\n"));
    assert!(rt; is_damaged(&host, &FILE, &longer, "damaged at 17\n"));
    assert!(rt; is_unserved(&host, &longer, "damaged at 17\n"));
}

// A file of the first version, of these pieces behind its title, is damaged there, and both disks stay.
fn is_not_migrated<R: Abort + Threads + Wait + Sync>(
    host: &Host<'_, R>,
    pieces: &[&[u8]],
    told: &str,
) -> bool {
    let file = behind_title(host, b"TBHOSTJOURNAL001", pieces);
    let run = run(host, &["migrate"], FIRST_LINE, disk_of(host, &file));
    is_ended(&run, 8, b"", told)
        && run.disk.contents() == file.as_slice()
        && run.spare.contents() == SPARE
}

// There a frame begins at 16 with an open gate, and has no ordinal; the first entry's moment has four bytes.
#[test]
fn damage_in_the_first_version_is_told(rt: HostRuntime) {
    let host = Host {
        rt: &rt,
        alloc: rt.alloc(),
    };
    let first: &[u8] = b"\x08operator\0\0\0\0\0\0\0\x01\x67\x28\x62\xe0\x01\x07dealer1\x02k1";
    let head: &[u8] = b"\x01\0\0\0\x21";
    let twice: [&[u8]; 5] = [head, first, head, first, b"\0"];
    let empty: [&[u8]; 3] = [b"\x01\0\0\0\0", first, b"\0"];
    let long: [&[u8]; 3] = [b"\x01\0\0\x80\x01", first, b"\0"];
    let one_more: [&[u8]; 3] = [b"\x01\0\0\0\x22", first, b"x\0"];
    assert!(rt; is_not_migrated(&host, &twice, "damaged at 54\n"));
    assert!(rt; is_not_migrated(&host, &empty, "damaged at 16\n"));
    assert!(rt; is_not_migrated(&host, &long, "damaged at 16\n"));
    assert!(rt; is_not_migrated(&host, &one_more, "damaged at 16\n"));
}

// A line of the operator with this text, and the end, on an empty disk.
fn asked<R: Abort + Threads + Wait + Sync>(
    host: &Host<'_, R>,
    text: &str,
    behind: &str,
) -> Outcome {
    let script = joined(host, &["1730700000 op:root ", text, behind]);
    run(host, &RUN, &script, disk_of(host, b""))
}

// So many open brackets and so many closed ones, with these texts before and behind them, are told so.
fn brackets_are_told<R: Abort + Threads + Wait + Sync>(
    host: &Host<'_, R>,
    open: u64,
    closed: u64,
    around: (&str, &str),
    told: &str,
) -> bool {
    let open = repeated(host, "[", open);
    let closed = repeated(host, "]", closed);
    let text = joined(host, &[around.0, &open, &closed, around.1]);
    let run = asked(host, &text, "\nend\n");
    is_ended(&run, 0, told.as_bytes(), "") && run.disk.contents() == EMPTY
}

// Up to 127 are read: then it is no object.
#[test]
fn a_text_of_200_brackets_is_no_json(rt: HostRuntime) {
    let host = Host {
        rt: &rt,
        alloc: rt.alloc(),
    };
    let no_json = "refused 5 BadJson\n";
    let bare = ("", "");
    let member = (
        r#"{"number":1,"kind":"register","submitter":"#,
        r#","key":"k1"}"#,
    );
    assert!(rt; brackets_are_told(&host, 200, 200, bare, no_json));
    assert!(rt; brackets_are_told(&host, 4_000, 4_000, bare, no_json));
    assert!(rt; brackets_are_told(&host, 8_000, 0, bare, no_json));
    assert!(rt; brackets_are_told(&host, 0, 8_000, bare, no_json));
    assert!(rt; brackets_are_told(&host, 128, 128, bare, no_json));
    assert!(rt; brackets_are_told(&host, 127, 127, bare, "refused 6 BadShape body\n"));
    assert!(rt; brackets_are_told(&host, 200, 200, member, no_json));
    assert!(rt; brackets_are_told(&host, 100, 100, member, "refused 6 BadShape submitter\n"));
}

// A first line of so many bytes, and what stands behind it, ends so. Its front has 20 bytes, and it is no JSON text.
fn is_first<R: Abort + Threads + Wait + Sync>(
    host: &Host<'_, R>,
    size: u64,
    behind: &str,
    status: u8,
    out: &str,
    err: &str,
) -> bool {
    let spaces = repeated(host, " ", size.saturating_sub(20));
    let text = joined(host, &["{", &spaces]);
    let run = asked(host, &text, behind);
    is_ended(&run, status, out.as_bytes(), err) && run.disk.contents() == EMPTY
}

#[test]
fn a_line_of_8193_bytes_as_line_1_is_bad_input(rt: HostRuntime) {
    let host = Host {
        rt: &rt,
        alloc: rt.alloc(),
    };
    let no_json = "refused 5 BadJson\n";
    let bad = "bad input at line 1\n";
    assert!(rt; is_first(&host, 8_192, "\nend\n", 0, no_json, ""));
    assert!(rt; is_first(&host, 8_192, "\r\nend\n", 0, no_json, ""));
    assert!(rt; is_first(&host, 8_193, "\nend\n", 3, "", bad));
    assert!(rt; is_first(&host, 8_193, "\r\nend\n", 3, "", bad));
    assert!(rt; is_first(&host, 8_193, "", 3, "", bad));
    assert!(rt; is_first(&host, 40_000, "\nend\n", 3, "", bad));
}

// These records behind the header, over the announced auction, end so. The journal stays as it was.
fn is_imported<R: Abort + Threads + Wait + Sync>(
    host: &Host<'_, R>,
    records: &str,
    status: u8,
    out: &str,
    err: &str,
) -> bool {
    let announced = journal(host, &[REGISTER, ENROL, ANNOUNCE]);
    let table = joined(host, &["number,auction,bidder,rate,amount\n", records]);
    let run = run(host, &IMPORT, &table, disk_of(host, &announced));
    is_ended(&run, status, out.as_bytes(), err) && run.disk.contents() == announced.as_slice()
}

// The most that an amount can be is an amount, which this auction refuses.
#[test]
fn an_amount_of_a_trillion_and_one_is_bad_input_at_line_2(rt: HostRuntime) {
    let host = Host {
        rt: &rt,
        alloc: rt.alloc(),
    };
    let most = "7,bill13,fund1,4.300,1000000000000\n8,bill13,fund1,,1000000000000\n";
    let refused = "7 refused 20 PositionRequired\n8 refused 18 NoncompetitiveCeiling\n";
    let above = "7,bill13,fund1,4.300,1000000000001\n";
    let above_others = "7,bill13,fund1,4.300,1000000000001\n8,bill13,fund1,4.300,100\n";
    let above_unpriced = "7,bill13,fund1,,1000000000001\n";
    let behind_a_good_one = "7,bill13,fund1,4.300,100\n8,bill13,fund1,4.300,1000000000001\n";
    let line_2 = "bad input at line 2\n";
    assert!(rt; is_imported(&host, most, 0, refused, ""));
    assert!(rt; is_imported(&host, above, 3, "", line_2));
    assert!(rt; is_imported(&host, above_others, 3, "", line_2));
    assert!(rt; is_imported(&host, above_unpriced, 3, "", line_2));
    assert!(rt; is_imported(&host, behind_a_good_one, 3, "", "bad input at line 3\n"));
}
