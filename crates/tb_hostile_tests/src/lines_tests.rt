//! Books and scripts of as many lines as there may be, and of one more.
use crate::auction::{EMPTY, RUN};
use crate::trying::{Host, Outcome, disk_of, is_ended, joined, repeated, serve_with_room};
use std::process::Abort;
use std::sync::Wait;
use std::thread::Threads;

const AWARD: [&str; 2] = ["award", "full"];

// The command on a text, a line 999,000 times and some more, and a text behind them, on an empty disk. The output has
// room for 1,000,000 replies.
fn ends<R: Abort + Threads + Wait + Sync>(
    host: &Host<'_, R>,
    words: &[&str],
    front: &str,
    line: &str,
    more: u64,
    behind: &str,
) -> Outcome {
    let most = most_of(host, line);
    let more = repeated(host, line, more);
    let text = joined(host, &[front, &most, &more, behind]);
    let disk = disk_of(host, b"");
    serve_with_room(host, words, &text, 21_000_000, disk, Vec::new(host.alloc))
}

// A line 999,000 times.
fn most_of<R: Abort>(host: &Host<'_, R>, line: &str) -> String {
    let thousand = repeated(host, line, 1_000);
    repeated(host, &thousand, 999)
}

/// A bill of 91 days, and a bid for 35 percent of the offering.
const BOOK: &str = "offering 1000000 100 91\nc a 4.000 350000\n";

/// The bid is less than is offered: its rate is the stop, and it gets all.
const AWARDED: &str = "high 4.000
allotted 100.00
price 98.988889
award a 350000 346461.11
";

// The book with 999,000 reports of no position and so many more, and the end behind them, ends so.
fn is_awarded<R: Abort + Threads + Wait + Sync>(
    host: &Host<'_, R>,
    more: u64,
    status: u8,
    out: &str,
    err: &str,
) -> bool {
    let run = ends(host, &AWARD, BOOK, "p a 0\n", more, "end\n");
    is_ended(&run, status, out.as_bytes(), err) && run.disk.contents() == b"".as_slice()
}

#[test]
fn a_book_of_1000000_lines_is_awarded(rt: HostRuntime) {
    let host = Host {
        rt: &rt,
        alloc: rt.alloc(),
    };
    assert!(rt; is_awarded(&host, 997, 0, AWARDED, ""));
}

#[test]
fn a_book_of_one_line_more_is_bad_input(rt: HostRuntime) {
    let host = Host {
        rt: &rt,
        alloc: rt.alloc(),
    };
    assert!(rt; is_awarded(&host, 998, 3, "", "bad input at line 1000001\n"));
}

// A script of 999,000 lines of a key of nobody and so many more, and the end behind them, ends so, with as many
// replies.
fn is_told<R: Abort + Threads + Wait + Sync>(
    host: &Host<'_, R>,
    more: u64,
    status: u8,
    err: &str,
) -> bool {
    let run = ends(host, &RUN, "", "1730700000 k1 {}\n", more, "end\n");
    let reply = "refused 1 UnknownKey\n";
    let most = most_of(host, reply);
    let more = repeated(host, reply, more);
    let replies = joined(host, &[most.as_str(), more.as_str()]);
    is_ended(&run, status, replies.as_bytes(), err) && run.disk.contents() == EMPTY
}

#[test]
fn a_script_of_1000000_lines_is_told(rt: HostRuntime) {
    let host = Host {
        rt: &rt,
        alloc: rt.alloc(),
    };
    assert!(rt; is_told(&host, 999, 0, ""));
}

// Each line before it is acted on.
#[test]
fn a_script_of_one_line_more_is_bad_input(rt: HostRuntime) {
    let host = Host {
        rt: &rt,
        alloc: rt.alloc(),
    };
    assert!(rt; is_told(&host, 1_000, 3, "bad input at line 1000001\n"));
}
