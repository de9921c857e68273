//! `register` on what scripts left. The texts are worked out by hand from the rules.
ghost use Rattle.std.specs.Prelude.{◌≤◌, ◌^◌};

use crate::opening::{opened, registered};
use crate::run_tests::WORDS;
use crate::tests::{Outcome, disk_of, is_ended, joined, keep_from, run};
use std::alloc::Global;
use std::process::Abort;
use std::sync::Wait;
use std::thread::Threads;
use tb_link::TextSource;
use tb_register::{Keeper, MemoryKeeper, Row};
use tb_register_sql::MemorySqlKeeper;
use tb_terms::Cusip;
use tb_units::{Day, Dollars, Ident};

const ALL: [&str; 1] = ["register"];

const OF_BILL: [&str; 3] = ["register", "--cusip", "912797AA5"];

/// The ordinary auction with an add-on of 5,000,000,000.
const ADDED: &str = opened!(
    r#"
1730700000 op:root {"number":4,"kind":"addon","auction":"bill13","holder":"dealer1","amount":5000000000}
1730737799 k1 {"number":1,"kind":"bid","auction":"bill13","bidder":"fund1","rate":"4.27","amount":20000000000}
1730737800 op:root {"number":5,"kind":"publish","auction":"bill13"}
end
"#
);

/// Its row.
const LINE: &str = "bill13 2024-11-07 2025-02-06 76000000000 25000000000 4.270 100.00 98.920639\n";

/// Three auctions of a bill are published, of which the second got no bid at all, and the third has an add-on of
/// 5,000,000,000 beside its one bid of 100.
const THREE: &str = registered!(
    r#"
1730700000 op:root {"number":2,"kind":"enrol","bidder":"fund1","submitter":"dealer1"}
1730700000 op:root {"number":3,"kind":"announce","auction":"b","cusip":"912797AB3","offering":1000000,"minimum":100,"ceiling":1000000,"floor":1000000,"threshold":1000000,"date":"2024-11-04","nc_close":"11:00","c_close":"11:30","issue":"2024-11-07","maturity":"2025-02-15"}
1730700000 op:root {"number":4,"kind":"announce","auction":"c","cusip":"912797AB3","offering":2000000,"minimum":100,"ceiling":1000000,"floor":1000000,"threshold":1000000,"date":"2024-11-04","nc_close":"11:00","c_close":"11:30","issue":"2024-11-07","maturity":"2025-02-15"}
1730700000 op:root {"number":5,"kind":"announce","auction":"a","cusip":"912797AB3","offering":3000000,"minimum":100,"ceiling":1000000,"floor":1000000,"threshold":1000000,"date":"2024-11-04","nc_close":"11:00","c_close":"11:30","issue":"2024-11-07","maturity":"2025-02-15"}
1730700000 op:root {"number":6,"kind":"addon","auction":"a","holder":"dealer1","amount":5000000000}
1730700000 k1 {"number":1,"kind":"bid","auction":"b","bidder":"fund1","rate":"4.000","amount":1000}
1730700000 k1 {"number":2,"kind":"bid","auction":"a","bidder":"fund1","rate":"4.000","amount":100}
1730737800 op:root {"number":7,"kind":"publish","auction":"b"}
1730737800 op:root {"number":8,"kind":"publish","auction":"c"}
1730737800 op:root {"number":9,"kind":"publish","auction":"a"}
end
"#
);

/// The first of them alone.
const ONE: &str = registered!(
    r#"
1730700000 op:root {"number":2,"kind":"enrol","bidder":"fund1","submitter":"dealer1"}
1730700000 op:root {"number":3,"kind":"announce","auction":"b","cusip":"912797AB3","offering":1000000,"minimum":100,"ceiling":1000000,"floor":1000000,"threshold":1000000,"date":"2024-11-04","nc_close":"11:00","c_close":"11:30","issue":"2024-11-07","maturity":"2025-02-15"}
1730700000 k1 {"number":1,"kind":"bid","auction":"b","bidder":"fund1","rate":"4.000","amount":1000}
1730737800 op:root {"number":7,"kind":"publish","auction":"b"}
end
"#
);

/// The rows of the three. At 4.000 percent over 100 days 100 dollars cost 100 - 100 * 4 / 360 = 98.888889.
const LINES: &str = "a 2024-11-07 2025-02-15 3000000 5000000100 4.000 100.00 98.888889
b 2024-11-07 2025-02-15 1000000 1000 4.000 100.00 98.888889
c 2024-11-07 2025-02-15 2000000 0 - - -
";

// What the script leaves is filed in the register. The writes of these numbers fail. The disk stays as it is.
fn file<R: Abort + Threads + Wait + Sync, K: Keeper>(
    rt: &R,
    alloc: Global,
    left: &str,
    words: &[&str],
    keeper: &mut K,
    failing_writes: &[u64],
) -> Outcome {
    let ran = run(rt, alloc, &WORDS, left, 4096, &[], &[]);
    let disk = disk_of(rt, alloc, ran.disk.contents(), &[], 0);
    let mut input = TextSource::new(Vec::new(alloc), 1, Vec::new(alloc));
    let (outcome, _gates) = keep_from(
        rt,
        alloc,
        words,
        &mut input,
        failing_writes,
        disk,
        Vec::new(alloc),
        keeper,
    );
    assert!(rt; outcome.disk.contents() == ran.disk.contents());
    outcome
}

// It ends so, with these texts.
fn files<R: Abort + Threads + Wait + Sync, K: Keeper>(
    rt: &R,
    alloc: Global,
    left: &str,
    words: &[&str],
    keeper: &mut K,
    status: u8,
    out: &str,
    err: &str,
) -> bool {
    let outcome = file(rt, alloc, left, words, keeper, &[]);
    is_ended(&outcome, status, out, err)
}

// All is filed, and these counts are told.
fn files_all<R: Abort + Threads + Wait + Sync, K: Keeper>(
    rt: &R,
    alloc: Global,
    left: &str,
    keeper: &mut K,
    counts: &str,
) -> bool {
    files(rt, alloc, left, &ALL, keeper, 0, counts, "")
}

// The ordinary auction is filed, and its row is told behind these counts.
fn files_bill<R: Abort + Threads + Wait + Sync, K: Keeper>(
    rt: &R,
    alloc: Global,
    keeper: &mut K,
    counts: &str,
) -> bool {
    let text = joined(rt, alloc, &[counts, LINE]);
    files(rt, alloc, ADDED, &OF_BILL, keeper, 0, &text, "")
}

// A row of an auction of which so much is offered.
fn row(rt: &impl Abort, auction: &str, offering: u128) -> Row
    requires { offering ≤ 10 ^ 17 }
{
    Row {
        auction: Ident::read(auction).expect(rt, "no name"),
        cusip: Cusip {
            bytes: *b"912797AA5",
        },
        issue: Day { number: 20_034 },
        maturity: Day { number: 20_125 },
        offering: Dollars { value: offering },
        total: Dollars { value: 0 },
        figures: None,
    }
}

fn no_fails(alloc: Global) -> MemoryKeeper {
    MemoryKeeper::new(alloc, Vec::new(alloc))
}

// The ordinary auction is filed once, and stays.
fn files_once<R: Abort + Threads + Wait + Sync, K: Keeper>(
    rt: &R,
    alloc: Global,
    keeper: &mut K,
) -> bool {
    files_bill(rt, alloc, keeper, "added 1\npresent 0\n")
        && files_bill(rt, alloc, keeper, "added 0\npresent 1\n")
        && files_all(rt, alloc, ADDED, keeper, "added 0\npresent 1\n")
}

// The rows of a bill stand in the order of their names, and what was filed before is there.
fn files_three<R: Abort + Threads + Wait + Sync, K: Keeper>(
    rt: &R,
    alloc: Global,
    keeper: &mut K,
) -> bool {
    let words = ["register", "--cusip=912797AB3"];
    let text = joined(rt, alloc, &["added 2\npresent 1\n", LINES]);
    let none = "added 0\npresent 3\n";
    files_all(rt, alloc, ONE, keeper, "added 1\npresent 0\n")
        && files(rt, alloc, THREE, &words, keeper, 0, &text, "")
        && files(rt, alloc, THREE, &OF_BILL, keeper, 0, none, "")
        && files_all(rt, alloc, "end\n", keeper, "added 0\npresent 0\n")
}

// Another row of the auction is told.
fn tells_another<R: Abort + Threads + Wait + Sync, K: Keeper>(
    rt: &R,
    alloc: Global,
    keeper: &mut K,
) -> bool {
    let told = "register differs at bill13\n";
    keeper.put(&row(rt, "bill13", 1_000_000)) == Ok(None)
        && files(rt, alloc, ADDED, &OF_BILL, keeper, 12, "", told)
}

#[test]
fn an_auction_is_filed_once(rt: HostRuntime) {
    let alloc = rt.alloc();
    assert!(rt; files_once(&rt, alloc, &mut no_fails(alloc)));
    assert!(rt; files_once(&rt, alloc, &mut MemorySqlKeeper::in_memory(alloc)));
}

#[test]
fn three_auctions_are_filed(rt: HostRuntime) {
    let alloc = rt.alloc();
    assert!(rt; files_three(&rt, alloc, &mut no_fails(alloc)));
    assert!(rt; files_three(&rt, alloc, &mut MemorySqlKeeper::in_memory(alloc)));
}

#[test]
fn another_row_of_an_auction_is_told(rt: HostRuntime) {
    let alloc = rt.alloc();
    assert!(rt; tells_another(&rt, alloc, &mut no_fails(alloc)));
    assert!(rt; tells_another(&rt, alloc, &mut MemorySqlKeeper::in_memory(alloc)));
}

#[test]
fn the_first_auction_that_differs_is_told(rt: HostRuntime) {
    let alloc = rt.alloc();
    let mut keeper = no_fails(alloc);
    assert!(rt; keeper.put(&row(&rt, "c", 1)) == Ok(None));
    assert!(rt; keeper.put(&row(&rt, "a", 1)) == Ok(None));
    let told = "register differs at c\n";
    assert!(rt; files(&rt, alloc, THREE, &ALL, &mut keeper, 12, "", told));
    // The one before it is filed, and the one behind it isn't looked at.
    assert!(rt; files_all(&rt, alloc, ONE, &mut keeper, "added 0\npresent 1\n"));
}

// The keeper fails at this call, and nothing is printed.
fn tells_a_fault<R: Abort + Threads + Wait + Sync>(rt: &R, alloc: Global, call: u64) -> bool {
    let fails = vec![in alloc; call].expect(rt, "memory");
    let mut keeper = MemoryKeeper::new(alloc, fails);
    let told = "keeper fault\n";
    files(rt, alloc, ADDED, &OF_BILL, &mut keeper, 13, "", told)
}

#[test]
fn a_keeper_that_fails_is_told(rt: HostRuntime) {
    assert!(rt; tells_a_fault(&rt, rt.alloc(), 0));
    assert!(rt; tells_a_fault(&rt, rt.alloc(), 1));
}

#[test]
fn a_write_that_fails_ends_register_when_all_is_filed(rt: HostRuntime) {
    let alloc = rt.alloc();
    let mut keeper = no_fails(alloc);
    let failed = file(&rt, alloc, ADDED, &OF_BILL, &mut keeper, &[0]);
    assert!(rt; is_ended(&failed, 5, "", "write fault\n"));
    assert!(rt; files_all(&rt, alloc, ADDED, &mut keeper, "added 0\npresent 1\n"));
}
