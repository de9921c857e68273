//! Whole runs: texts, statuses, and reads and writes that fail.
use std::alloc::Global;
use std::process::Abort;
use std::sync::Wait;
use std::thread::Threads;
use tb_disk::MemoryDisk;
use tb_gates::{ListClock, ListGate};
use tb_host::*;
use tb_link::{Source, TextSink, TextSource};
use tb_register::{Keeper, MemoryKeeper};
use tb_units::Moment;

pub const BOOK: &str = "offering 1000000000 1000000 91\n\
    n n1 100000000\n\
    c a 5.320 300000000\n\
    c b 5.325 350000000\n\
    c c 5.330 300000000\n\
    c d 5.330 150000000\n\
    end\n";

const TEXT: &str = "high 5.330\nallotted 55.56\nprice 98.652694\n";

const FULL_TEXT: &str = "high 5.330\nallotted 55.56\nprice 98.652694\n\
    award n1 100000000 98652694.00\n\
    award a 300000000 295958082.00\n\
    award b 350000000 345284429.00\n\
    award c 166680000 164434310.36\n\
    award d 83340000 82217155.18\n";

/// Nothing is recognised of a bidder whose position passes the limit of 35 percent.
const POSITION_ALONE: &str = "offering 1000000000 1000000 91\n\
    p z 400000000\n\
    c z 5.100 100000000\n\
    end\n";

// Books worked out by hand, and what `award full` prints for them. The same books are in `examples/award/`.

/// A bid above 35 percent of the offering is cut to it.
const CUT_BOOK: &str = "offering 1000000000 1000000 91\n\
    n n1 100000000\n\
    c a 5.320 300000000\n\
    c b 5.325 350000000\n\
    c c 5.330 400000000\n\
    c d 5.330 100000000\n\
    end\n";

const CUT_TEXT: &str = "high 5.330\n\
    allotted 55.56\n\
    price 98.652694\n\
    award n1 100000000 98652694.00\n\
    award a 300000000 295958082.00\n\
    award b 350000000 345284429.00\n\
    award c 194460000 191840028.75\n\
    award d 55560000 54811436.79\n";

/// A position lowers the limit.
const LOWERED_BOOK: &str = "offering 10000000000 1000000 91\n\
    p x 1000000000\n\
    c x 4.000 1000000000\n\
    c x 4.005 1000000000\n\
    c x 4.010 1000000000\n\
    c y 4.010 3500000000\n\
    c z 4.015 3500000000\n\
    c w 4.020 3500000000\n\
    end\n";

const LOWERED_TEXT: &str = "high 4.020\n\
    allotted 14.29\n\
    price 98.983833\n\
    award x 2500000000 2474595825.00\n\
    award y 3500000000 3464434155.00\n\
    award z 3500000000 3464434155.00\n\
    award w 500150000 495067640.75\n";

/// A position above the cap leaves nothing, and the bids fall short.
const SHORT_BOOK: &str = "offering 1000000000 1000000 91\n\
    p z 400000000\n\
    c y 5.000 100000000\n\
    c z 5.100 100000000\n\
    end\n";

const SHORT_TEXT: &str = "high 5.000\n\
    allotted 100.00\n\
    price 98.736111\n\
    award z 0 0.00\n\
    award y 100000000 98736111.00\n";

/// Nothing is left of the offering, so the floor is sought.
const FLOOR_BOOK: &str = "offering 1000000000 100000000 91\n\
    n m 1200000000\n\
    c a 5.000 60000000\n\
    c b 5.010 80000000\n\
    end\n";

const FLOOR_TEXT: &str = "high 5.010\n\
    allotted 50.00\n\
    price 98.733583\n\
    award m 1200000000 1184802996.00\n\
    award a 60000000 59240149.80\n\
    award b 40000000 39493433.20\n";

/// A third is missing at the stop: 33.34 percent.
const THIRD_BOOK: &str = "offering 300000000 1000000 91\n\
    c a 5.000 105000000\n\
    c b 5.000 105000000\n\
    c c 5.010 90000000\n\
    c d 5.010 90000000\n\
    c e 5.010 90000000\n\
    end\n";

const THIRD_TEXT: &str = "high 5.010\n\
    allotted 33.34\n\
    price 98.733583\n\
    award a 105000000 103670262.15\n\
    award b 105000000 103670262.15\n\
    award c 30006000 29625998.91\n\
    award d 30006000 29625998.91\n\
    award e 30006000 29625998.91\n";

/// What the clock gives.
const NOON: Moment = Moment {
    seconds: 1_730_700_000,
};

/// Bytes that a sink has room for.
const ROOM: usize = 120_000;

/// How a run ended, what its sinks have taken, and its disk.
#[derive(Drop)]
pub struct Outcome {
    pub status: u8,
    pub out: TextSink,
    pub err: TextSink,
    pub disk: MemoryDisk,
}

/// What the host runs on: threads, and memory.
#[derive(Drop)]
pub struct Host<'r, R> {
    pub rt: &'r R,
    pub alloc: Global,
}

/// Runs the host on an empty disk, with the text in pieces of this size: it ends with this status, and has written this
/// to its output and this to its errors.
pub fn runs<R: Abort + Threads + Wait + Sync>(
    host: &Host<'_, R>,
    words: &[&str],
    text: &str,
    piece: usize,
    status: u8,
    out: &str,
    err: &str,
) -> bool {
    ends(host, words, text, piece, &[], &[], status, out, err)
}

/// The same where the reads and the writes of these numbers fail.
pub fn ends<R: Abort + Threads + Wait + Sync>(
    host: &Host<'_, R>,
    words: &[&str],
    text: &str,
    piece: usize,
    failing_reads: &[u64],
    failing_writes: &[u64],
    status: u8,
    out: &str,
    err: &str,
) -> bool {
    let run = run(
        host.rt,
        host.alloc,
        words,
        text,
        piece,
        failing_reads,
        failing_writes,
    );
    is_ended(&run, status, out, err)
}

/// The run ended with this status, and has written this to its output and this to its errors.
pub fn is_ended(run: &Outcome, status: u8, out: &str, err: &str) -> bool {
    run.status == status && run.out.bytes() == out.as_bytes() && run.err.bytes() == err.as_bytes()
}

/// The texts, one behind the other.
pub fn joined(rt: &impl Abort, alloc: Global, texts: &[&str]) -> String {
    let mut whole = String::new(alloc);
    for text in texts {
        whole.push_str(text).expect(rt, "memory");
    }
    whole
}

/// The run ended so, and its disk has these contents.
pub fn leaves(run: &Outcome, status: u8, out: &str, err: &str, contents: &[u8]) -> bool {
    is_ended(run, status, out, err) && run.disk.contents() == contents
}

/// A disk with these contents and some room, of which the calls of these numbers fail: a failed write leaves the byte
/// `torn` where something stood.
pub fn disk_of(
    rt: &impl Abort,
    alloc: Global,
    contents: &[u8],
    fails: &[u64],
    torn: u8,
) -> MemoryDisk {
    assert!(rt; contents.len() < 10_000);
    let fails = fails.to_vec(alloc).expect(rt, "memory");
    MemoryDisk::new(alloc, contents, 10_000, 100_000, fails, torn).expect(rt, "memory")
}

/// Runs the host on an empty disk. The reads and writes of these numbers fail.
pub fn run<R: Abort + Threads + Wait + Sync>(
    rt: &R,
    alloc: Global,
    words: &[&str],
    text: &str,
    piece: usize,
    failing_reads: &[u64],
    failing_writes: &[u64],
) -> Outcome {
    let none = Vec::new(alloc);
    let disk = MemoryDisk::new(alloc, b"", 300_000, 1_000_000, none, 0).expect(rt, "memory");
    run_on(
        rt,
        alloc,
        words,
        text,
        piece,
        failing_reads,
        failing_writes,
        disk,
    )
}

/// Runs the host on a disk.
pub fn run_on<R: Abort + Threads + Wait + Sync>(
    rt: &R,
    alloc: Global,
    words: &[&str],
    text: &str,
    piece: usize,
    failing_reads: &[u64],
    failing_writes: &[u64],
    disk: MemoryDisk,
) -> Outcome {
    let (outcome, _gates) = serve_on(
        rt,
        alloc,
        words,
        text,
        piece,
        failing_reads,
        failing_writes,
        disk,
        Vec::new(alloc),
    );
    outcome
}

/// Runs the host on a disk and these gates, which are as many as the words say.
pub fn serve_on<R: Abort + Threads + Wait + Sync>(
    rt: &R,
    alloc: Global,
    words: &[&str],
    text: &str,
    piece: usize,
    failing_reads: &[u64],
    failing_writes: &[u64],
    disk: MemoryDisk,
    gates: Vec<ListGate>,
) -> (Outcome, Vec<ListGate>) {
    let mut input = TextSource::new(
        text.as_bytes().to_vec(alloc).expect(rt, "memory"),
        piece.max(1),
        failing_reads.to_vec(alloc).expect(rt, "memory"),
    );
    serve_from(rt, alloc, words, &mut input, failing_writes, disk, gates)
}

/// Runs the host on an input, a disk and these gates, with an empty register.
pub fn serve_from<R: Abort + Threads + Wait + Sync, I: Source>(
    rt: &R,
    alloc: Global,
    words: &[&str],
    input: &mut I,
    failing_writes: &[u64],
    disk: MemoryDisk,
    gates: Vec<ListGate>,
) -> (Outcome, Vec<ListGate>) {
    let mut keeper = MemoryKeeper::new(alloc, Vec::new(alloc));
    keep_from(
        rt,
        alloc,
        words,
        input,
        failing_writes,
        disk,
        gates,
        &mut keeper,
    )
}

// The words, as the host takes them.
fn owned(rt: &impl Abort, alloc: Global, words: &[&str]) -> Vec<String> {
    let mut owned = Vec::new(alloc);
    for word in words {
        let word = word.to_string(alloc).expect(rt, "memory");
        owned.push(word).expect(rt, "memory");
    }
    owned
}

// A sink of which the writes of these numbers fail.
fn sink(rt: &impl Abort, alloc: Global, fails: &[u64]) -> TextSink {
    let fails = fails.to_vec(alloc).expect(rt, "memory");
    TextSink::new(alloc, ROOM, fails).expect(rt, "memory")
}

/// Runs the host on an input, a disk, these gates and this register.
pub fn keep_from<R: Abort + Threads + Wait + Sync, I: Source, K: Keeper>(
    rt: &R,
    alloc: Global,
    words: &[&str],
    input: &mut I,
    failing_writes: &[u64],
    disk: MemoryDisk,
    mut gates: Vec<ListGate>,
    keeper: &mut K,
) -> (Outcome, Vec<ListGate>) {
    let owned = owned(rt, alloc, words);
    let owned = owned.as_slice();
    let Ok(plan) = plan(alloc, owned) else {
        panic!(rt; "memory");
    };
    if gates.len() != plan.workers as usize {
        panic!(rt; "other gates");
    }
    let mut out = sink(rt, alloc, failing_writes);
    let mut err = sink(rt, alloc, &[]);
    let mut spare = MemoryDisk::new(alloc, b"spare", 5, 0, Vec::new(alloc), 0).expect(rt, "memory");
    let clock = ListClock::new(Vec::from_array(alloc, [NOON]).expect(rt, "memory"));
    let ended = host_main(
        rt, alloc, owned, input, &mut out, &mut err, disk, &mut spare, &mut gates, clock, keeper,
    );
    let outcome = Outcome {
        status: ended.status,
        out,
        err,
        disk: ended.disk,
    };
    (outcome, gates)
}

const FULL: [&str; 2] = ["award", "full"];

#[test]
fn the_text_is_printed_however_the_book_is_cut_into_pieces(rt: HostRuntime) {
    let host = Host {
        rt: &rt,
        alloc: rt.alloc(),
    };
    assert!(rt; runs(&host, &["award"], BOOK, 1, 0, TEXT, ""));
    assert!(rt; runs(&host, &["award"], BOOK, 2, 0, TEXT, ""));
    assert!(rt; runs(&host, &["award"], BOOK, 7, 0, TEXT, ""));
    assert!(rt; runs(&host, &["award"], BOOK, BOOK.len(), 0, TEXT, ""));
    assert!(rt; runs(&host, &FULL, BOOK, 1, 0, FULL_TEXT, ""));
    assert!(rt; runs(&host, &FULL, BOOK, 2, 0, FULL_TEXT, ""));
    assert!(rt; runs(&host, &FULL, BOOK, 7, 0, FULL_TEXT, ""));
    assert!(rt; runs(&host, &FULL, BOOK, BOOK.len(), 0, FULL_TEXT, ""));
}

#[test]
fn worked_books_have_their_texts(rt: HostRuntime) {
    let host = Host {
        rt: &rt,
        alloc: rt.alloc(),
    };
    assert!(rt; runs(&host, &FULL, CUT_BOOK, 64, 0, CUT_TEXT, ""));
    assert!(rt; runs(&host, &FULL, LOWERED_BOOK, 64, 0, LOWERED_TEXT, ""));
    assert!(rt; runs(&host, &FULL, SHORT_BOOK, 64, 0, SHORT_TEXT, ""));
    assert!(rt; runs(&host, &FULL, FLOOR_BOOK, 64, 0, FLOOR_TEXT, ""));
    assert!(rt; runs(&host, &FULL, THIRD_BOOK, 64, 0, THIRD_TEXT, ""));
}

#[test]
fn nobody_gets_an_award_where_nothing_is_recognised(rt: HostRuntime) {
    let host = Host {
        rt: &rt,
        alloc: rt.alloc(),
    };
    assert!(rt; runs(&host, &["award"], POSITION_ALONE, 7, 0, "no awards\n", ""));
    assert!(rt;
        runs(
            &host,
            &FULL,
            POSITION_ALONE,
            7,
            0,
            "no awards\naward z 0 0.00\n",
            ""
        )
    );
}

// Each byte of the book is a read: so one of them fails.
fn tells_each_read<R: Abort + Threads + Wait + Sync>(host: &Host<'_, R>, words: &[&str]) -> bool {
    for call in 0..BOOK.len() as u64 {
        if !ends(host, words, BOOK, 1, &[call], &[], 4, "", "read fault\n") {
            return false;
        }
    }
    true
}

#[test]
fn each_read_that_fails_ends_the_run(rt: HostRuntime) {
    let host = Host {
        rt: &rt,
        alloc: rt.alloc(),
    };
    let reads = BOOK.len() as u64;
    assert!(rt; tells_each_read(&host, &["award"]));
    assert!(rt; tells_each_read(&host, &FULL));
    // Nothing is read behind them.
    assert!(rt; ends(&host, &["award"], BOOK, 1, &[reads], &[], 0, TEXT, ""));
    assert!(rt; ends(&host, &FULL, BOOK, 1, &[reads], &[], 0, FULL_TEXT, ""));
}

// There is one write.
#[test]
fn each_write_that_fails_ends_the_run(rt: HostRuntime) {
    let host = Host {
        rt: &rt,
        alloc: rt.alloc(),
    };
    assert!(rt;
        ends(
            &host,
            &["award"],
            BOOK,
            BOOK.len(),
            &[],
            &[0],
            5,
            "",
            "write fault\n"
        )
    );
    assert!(rt; ends(&host, &["award"], BOOK, BOOK.len(), &[], &[1], 0, TEXT, ""));
    assert!(rt;
        ends(
            &host,
            &FULL,
            BOOK,
            BOOK.len(),
            &[],
            &[0],
            5,
            "",
            "write fault\n"
        )
    );
    assert!(rt; ends(&host, &FULL, BOOK, BOOK.len(), &[], &[1], 0, FULL_TEXT, ""));
}

// The award of a book of two lines, without an end or with a bid too many, ends at the third.
#[test]
fn faulty_words_and_books_are_told(rt: HostRuntime) {
    let host = Host {
        rt: &rt,
        alloc: rt.alloc(),
    };
    let unended = "offering 1000000000 1000000 91\nn a 100\n";
    let mixed = "offering 1000000000 1000000 91\nn a 100\nc a 5.000 100\nend\n";
    assert!(rt; runs(&host, &[], BOOK, 7, 2, "", "usage\n"));
    assert!(rt; runs(&host, &["award", "more"], BOOK, 7, 2, "", "usage\n"));
    assert!(rt; runs(&host, &["award", "full", "full"], BOOK, 7, 2, "", "usage\n"));
    assert!(rt; runs(&host, &["trial", "1", "0"], BOOK, 7, 2, "", "usage\n"));
    assert!(rt; runs(&host, &["award"], "", 7, 3, "", "bad input at line 1\n"));
    assert!(rt;
        runs(
            &host,
            &["award"],
            unended,
            7,
            3,
            "",
            "bad input at line 3\n"
        )
    );
    assert!(rt; runs(&host, &FULL, mixed, 7, 3, "", "bad input at line 3\n"));
}

#[test]
fn a_trial_prints_its_figures(rt: HostRuntime) {
    let host = Host {
        rt: &rt,
        alloc: rt.alloc(),
    };
    let words = ["trial", "1", "1"];
    let text = "bids 1\nhigh 5.050\nallotted 100.00\nprice 98.723472\nawarded 27200\n";
    // No read is made.
    assert!(rt; ends(&host, &words, BOOK, 7, &[0], &[1], 0, text, ""));
    assert!(rt; ends(&host, &words, BOOK, 7, &[], &[0], 5, "", "write fault\n"));
}
