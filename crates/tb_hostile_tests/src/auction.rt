//! The worked auction: its script, what it is told, and the bytes that it leaves. All of it is worked out by hand from
//! the formats and the rules.
use crate::trying::{Host, disk_of, is_ended, run};
use std::process::Abort;
use std::sync::Wait;
use std::thread::Threads;

pub const RUN: [&str; 3] = ["run", "--op", "root"];

pub const SEND: [&str; 3] = ["follow", "send", "0"];

/// A bill of 91 days, from the registration of a dealer to the results: the operator's messages 1 to 4 and the dealer's
/// bid 1 are accepted, one bid is late, one comes again and once more with another amount, and three queries are asked.
pub const SCRIPT: &str =
    r#"1730700000 op:root {"number":1,"kind":"register","submitter":"dealer1","key":"k1"}
1730700000 op:root {"number":2,"kind":"enrol","bidder":"fund1","submitter":"dealer1"}
1730700000 op:root {"number":3,"kind":"announce","auction":"bill13","cusip":"912797AA5","offering":76000000000,"minimum":100,"ceiling":10000000,"floor":1000000000,"threshold":26600000000,"date":"2024-11-04","nc_close":"11:00","c_close":"11:30","issue":"2024-11-07","maturity":"2025-02-06"}
1730737799 k1 {"number":1,"kind":"bid","auction":"bill13","bidder":"fund1","rate":"4.27","amount":20000000000}
1730737800 k1 {"number":2,"kind":"bid","auction":"bill13","bidder":"fund1","rate":"4.270","amount":100}
1730737800 k1 {"number":1,"kind":"bid","auction":"bill13","bidder":"fund1","rate":"4.270","amount":20000000000}
1730737800 k1 {"number":1,"kind":"bid","auction":"bill13","bidder":"fund1","rate":"4.270","amount":100}
1730737800 k1 {"kind":"results","auction":"bill13"}
1730737800 op:root {"number":4,"kind":"publish","auction":"bill13"}
1730737800 k1 {"kind":"awards","auction":"bill13"}
1730737800 k1 {"kind":"results","auction":"bill13"}
end
"#;

/// Its first line, and the end.
pub const FIRST_LINE: &str =
    r#"1730700000 op:root {"number":1,"kind":"register","submitter":"dealer1","key":"k1"}
end
"#;

// What its lines are told where no call fails.
pub const REGISTERED: &str = "accepted 1 1730700000\n";

pub const ENROLLED: &str = "accepted 2 1730700000\n";

pub const ANNOUNCED: &str = "accepted 3 1730700000\n";

pub const BIDDEN: &str = "accepted 1 1730737799\n";

/// The bids that are late, come again and have another amount, and the results that are asked too early.
pub const BETWEEN: &str = "refused 17 Late 1730737800 1730737800
accepted 1 1730737799
refused 3 NumberReused
refused 62 NotPublished
";

pub const PUBLISHED: &str = "accepted 4 1730737800\n";

pub const AWARDS: &str = "lines 1
fund1 20000000000 19784127800.00
";

pub const RESULTS: &str = "lines 17
auction bill13
cusip 912797AA5
issue 2024-11-07
maturity 2025-02-06
days 91
offering 76000000000
noncompetitive 0
competitive 20000000000
addon 0
total 20000000000
high 4.270
allotted 100.00
median 4.270
low 4.270
price 98.920639
investment 4.377
bids at lower rates were accepted in full
";

/// All of it.
pub const ORDINARY: [&str; 8] = [
    REGISTERED, ENROLLED, ANNOUNCED, BIDDEN, BETWEEN, PUBLISHED, AWARDS, RESULTS,
];

/// What the script is told on a journal in which the results are published: everything was accepted before, and no
/// moment goes back, so the results are told wherever they are asked.
pub const AGAIN: [&str; 10] = [
    REGISTERED,
    ENROLLED,
    ANNOUNCED,
    BIDDEN,
    "refused 17 Late 1730737800 1730737800\naccepted 1 1730737799\n",
    "refused 3 NumberReused\n",
    RESULTS,
    PUBLISHED,
    AWARDS,
    RESULTS,
];

// The records of its five entries.
pub const REGISTER: &[u8] =
    b"\x08operator\0\0\0\0\0\0\0\x01\0\0\0\0\x67\x28\x62\xe0\x01\x07dealer1\x02k1";

pub const ENROL: &[u8] =
    b"\x08operator\0\0\0\0\0\0\0\x02\0\0\0\0\x67\x28\x62\xe0\x02\x05fund1\x07dealer1";

pub const ANNOUNCE: &[u8] =
    b"\x08operator\0\0\0\0\0\0\0\x03\0\0\0\0\x67\x28\x62\xe0\x04\x06bill13912797AA5\
    \0\0\0\x11\xb1\xf3\xf8\0\0\0\0\0\0\0\0\x64\0\0\0\0\0\x98\x96\x80\
    \0\0\0\0\x3b\x9a\xca\0\0\0\0\x06\x31\x7b\xca\0\
    \0\0\x4e\x3f\x02\x94\x02\xb2\0\0\x4e\x42\0\0\x4e\x9d";

pub const BID: &[u8] =
    b"\x07dealer1\0\0\0\0\0\0\0\x01\0\0\0\0\x67\x28\xf6\x87\x05\x06bill13\x05fund1\
    \0\0\x03\x56\0\0\0\x04\xa8\x17\xc8\0";

pub const PUBLISH: &[u8] = b"\x08operator\0\0\0\0\0\0\0\x04\0\0\0\0\x67\x28\xf6\x88\x09\x06bill13";

pub const ALL: [&[u8]; 5] = [REGISTER, ENROL, ANNOUNCE, BID, PUBLISH];

/// The journal of no entry.
pub const EMPTY: &[u8] = b"TBHOSTJOURNAL002\x01\0";

// The length of a record, the number of those before it, and the record, in the bytes of the formats.
fn push_record(rt: &impl Abort, bytes: &mut Vec<u8>, before: u64, record: &[u8]) {
    let length = u32::try_from(record.len()).expect(rt, "too long a record");
    bytes
        .extend_from_slice(&length.to_be_bytes())
        .expect(rt, "memory");
    bytes
        .extend_from_slice(&before.to_be_bytes())
        .expect(rt, "memory");
    bytes.extend_from_slice(record).expect(rt, "memory");
}

/// The journal of these entries, each under a gate of its own.
pub fn journal<R: Abort>(host: &Host<'_, R>, records: &[&[u8]]) -> Vec<u8> {
    let rt = host.rt;
    let mut file = b"TBHOSTJOURNAL002\x01"
        .to_vec(host.alloc)
        .expect(rt, "memory");
    let mut before = 0u64;
    for record in records {
        file.push(1).expect(rt, "memory");
        push_record(rt, &mut file, before, record);
        before = before.saturating_add(1);
    }
    file.push(0).expect(rt, "memory");
    file
}

/// The parcels of these entries.
pub fn parcels<R: Abort>(host: &Host<'_, R>, records: &[&[u8]]) -> Vec<u8> {
    let mut parcels = Vec::new(host.alloc);
    let mut before = 0u64;
    for record in records {
        push_record(host.rt, &mut parcels, before, record);
        before = before.saturating_add(1);
    }
    parcels
}

/// A new disk with these contents is opened by a run of `end`, and has these entries, each once and in this order.
pub fn keeps<R: Abort + Threads + Wait + Sync>(
    host: &Host<'_, R>,
    contents: &[u8],
    records: &[&[u8]],
) -> bool {
    let opened = run(host, &RUN, "end\n", disk_of(host, contents));
    let sent = run(host, &SEND, "", disk_of(host, opened.disk.contents()));
    let parcels = parcels(host, records);
    is_ended(&opened, 0, b"", "") && is_ended(&sent, 0, &parcels, "")
}
