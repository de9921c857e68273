//! How many reads the commands make: none behind the line that ends them, and none between a line and its reply.
use crate::import_tests::{IMPORT, TWO as TABLE};
use crate::run_tests::{TWO as SCRIPT, WORDS as RUN};
use crate::tests::{BOOK, Host, disk_of, joined, serve_from};
use std::alloc::Global;
use std::process::Abort;
use std::sync::Wait;
use std::thread::Threads;
use tb_link::{Failed, Source, TextSource};

/// A source in memory whose reads are counted.
#[derive(Drop)]
struct Watched {
    source: TextSource,
    reads: u64,
}

impl Source for Watched {
    ghost use Rattle.tb_link.specs.Memory.{text_source};

    ghost source = { λ watched. text_source watched.source };

    fn read(&mut self, into: &mut [u8]) -> Result<usize, Failed> {
        self.reads = self.reads.saturating_add(1);
        self.source.read(into)
    }

    ghost bounded = { λ self. self.source.faults.bounded };
}

/// Runs the host on a text of which each byte is a read: it ends so, after so many reads. The writes of these numbers
/// fail.
fn reads<R: Abort + Threads + Wait + Sync>(
    host: &Host<'_, R>,
    words: &[&str],
    text: &str,
    failing_writes: &[u64],
    status: u8,
    reads: usize,
) -> bool {
    let (rt, alloc) = (host.rt, host.alloc);
    let bytes = text.as_bytes().to_vec(alloc).expect(host.rt, "memory");
    let disk = disk_of(rt, alloc, b"", &[], 0);
    let mut input = Watched {
        source: TextSource::new(bytes, 1, Vec::new(alloc)),
        reads: 0,
    };
    let gates = Vec::new(alloc);
    let (run, _gates) = serve_from(rt, alloc, words, &mut input, failing_writes, disk, gates);
    run.status == status && input.reads == reads as u64
}

const OFFERING: &str = "offering 1000000000 1000000 91\n";

/// More bytes than a line may have, and as many as tell that: one more than with its line feed.
fn long_line(rt: &impl Abort, alloc: Global) -> String {
    let mut line = String::new(alloc);
    for _ in 0..9000u64 {
        line.push('x').expect(rt, "memory");
    }
    line
}

const LONG: usize = 8192 + 2;

// These lines, and what stands behind them: nothing of that is read. Of a long line as much is read as tells that it is
// one.
fn ends_behind<R: Abort + Threads + Wait + Sync>(
    host: &Host<'_, R>,
    words: &[&str],
    front: &str,
    last: &str,
    rest: &str,
    status: u8,
) -> bool {
    let text = joined(host.rt, host.alloc, &[front, last, rest]);
    let read = front.len().saturating_add(last.len().min(LONG));
    reads(host, words, &text, &[], status, read)
}

#[test]
fn award_reads_nothing_behind_the_line_that_ends_it(rt: HostRuntime) {
    let host = Host {
        rt: &rt,
        alloc: rt.alloc(),
    };
    let long = long_line(&rt, rt.alloc());
    let front = "offering 1000000000 1000000 91\nn a 100\n";
    assert!(rt; ends_behind(&host, &["award"], "", BOOK, "more\n", 0));
    assert!(rt; ends_behind(&host, &["award"], "", "bad\n", "more\nend\n", 3));
    assert!(rt; ends_behind(&host, &["award"], "", "n a 100\n", "end\n", 3));
    assert!(rt; ends_behind(&host, &["award"], "", &long, "\nend\n", 3));
    assert!(rt; ends_behind(&host, &["award"], front, "bad\n", "end\n", 3));
    assert!(rt; ends_behind(&host, &["award"], front, "n a 101\n", "end\n", 3));
    assert!(rt; ends_behind(&host, &["award"], front, OFFERING, "end\n", 3));
    assert!(rt; ends_behind(&host, &["award"], front, &long, "\nend\n", 3));
}

// One read more than there are bytes finds the end of the input.
fn finds_the_end<R: Abort + Threads + Wait + Sync>(
    host: &Host<'_, R>,
    words: &[&str],
    text: &str,
    status: u8,
) -> bool {
    reads(host, words, text, &[], status, text.len().saturating_add(1))
}

#[test]
fn the_end_of_the_input_is_found_once(rt: HostRuntime) {
    let host = Host {
        rt: &rt,
        alloc: rt.alloc(),
    };
    assert!(rt; finds_the_end(&host, &["award"], "", 3));
    assert!(rt; finds_the_end(&host, &["award"], "offering 1000000000 1000000 91\n", 3));
    assert!(rt; finds_the_end(&host, &["award"], "offering 1000000000 1000000 91", 3));
    assert!(rt; finds_the_end(&host, &RUN, "", 3));
    assert!(rt; finds_the_end(&host, &RUN, "1730700000 k1 {}\n", 3));
    assert!(rt; finds_the_end(&host, &RUN, "1730700000 k1 {}", 3));
    assert!(rt; finds_the_end(&host, &IMPORT, TABLE, 0));
    assert!(rt; finds_the_end(&host, &IMPORT, "number\n", 3));
    assert!(rt; finds_the_end(&host, &IMPORT, "", 3));
}

#[test]
fn run_reads_nothing_behind_the_line_that_ends_it(rt: HostRuntime) {
    let host = Host {
        rt: &rt,
        alloc: rt.alloc(),
    };
    let long = long_line(&rt, rt.alloc());
    let front = "1730700000 k1 {}\n";
    assert!(rt; ends_behind(&host, &RUN, front, "end\n", "more\n", 0));
    assert!(rt; ends_behind(&host, &RUN, front, "bad\n", "more\nend\n", 3));
    assert!(rt; ends_behind(&host, &RUN, front, &long, "\nend\n", 3));
}

// The lines of the script end behind 83, 100 and 104 bytes. Where the reply to one of them can't be written, nothing
// behind that line was read.
#[test]
fn a_line_is_answered_before_more_is_read(rt: HostRuntime) {
    let host = Host {
        rt: &rt,
        alloc: rt.alloc(),
    };
    assert!(rt; reads(&host, &RUN, SCRIPT, &[0], 5, 83));
    assert!(rt; reads(&host, &RUN, SCRIPT, &[1], 5, 100));
    assert!(rt; reads(&host, &RUN, SCRIPT, &[2], 0, 104));
}
