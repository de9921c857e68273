//! Runs of scripts. The ordinary auction and the rows of refusals are worked out by hand from the rules.
use crate::opening::{RESULTS, opened, registered};
use crate::tests::{Host, ends, joined, runs};
use std::alloc::Global;
use std::process::Abort;
use std::sync::Wait;
use std::thread::Threads;

/// The words of a run whose operator is `root`.
pub const WORDS: [&str; 3] = ["run", "--op", "root"];

/// A bill of 91 days, from its announcement to the awards.
pub const ORDINARY: &str = opened!(
    r#"
1730737799 k1 {"number":1,"kind":"bid","auction":"bill13","bidder":"fund1","rate":"4.27","amount":20000000000}
1730737800 k1 {"number":2,"kind":"bid","auction":"bill13","bidder":"fund1","rate":"4.270","amount":100}
1730737800 k1 {"number":1,"kind":"bid","auction":"bill13","bidder":"fund1","rate":"4.270","amount":20000000000}
1730737800 k1 {"number":1,"kind":"bid","auction":"bill13","bidder":"fund1","rate":"4.270","amount":100}
1730737800 k1 {"kind":"results","auction":"bill13"}
1730737800 op:root {"number":4,"kind":"publish","auction":"bill13"}
1730737800 k1 {"kind":"awards","auction":"bill13"}
1730737800 k1 {"kind":"results","auction":"bill13"}
end
"#
);

/// The replies to it, before the results.
const ORDINARY_REPLIES: &str = "accepted 1 1730700000
accepted 2 1730700000
accepted 3 1730700000
accepted 1 1730737799
refused 17 Late 1730737800 1730737800
accepted 1 1730737799
refused 3 NumberReused
refused 62 NotPublished
accepted 4 1730737800
lines 1
fund1 20000000000 19784127800.00
lines 17
";

/// The operator's messages in front of the bids below.
const OPENED: &str = registered!(
    r#"
1730700000 op:root {"number":2,"kind":"register","submitter":"dealer2","key":"k2"}
1730700000 op:root {"number":3,"kind":"enrol","bidder":"a","submitter":"dealer1"}
1730700000 op:root {"number":4,"kind":"enrol","bidder":"b","submitter":"dealer1"}
1730700000 op:root {"number":5,"kind":"enrol","bidder":"c","submitter":"dealer2"}
1730700000 op:root {"number":6,"kind":"announce","auction":"x","cusip":"912797AA5","offering":1000000000,"minimum":100,"ceiling":10000000,"floor":1000000,"threshold":350000000,"date":"2024-11-04","nc_close":"11:00","c_close":"11:30","issue":"2024-11-07","maturity":"2025-02-06"}
"#
);

const OPENED_REPLIES: &str = "accepted 1 1730700000
accepted 2 1730700000
accepted 3 1730700000
accepted 4 1730700000
accepted 5 1730700000
accepted 6 1730700000
";

/// A report where one is due, the noncompetitive ceiling, bids of two kinds and cancels.
const BID_RULES: [(&str, &str); 11] = [
    (
        r#"1730700000 k1 {"number":1,"kind":"bid","auction":"x","bidder":"a","rate":"5.000","amount":350000000}"#,
        "refused 20 PositionRequired",
    ),
    (
        r#"1730700000 k1 {"number":1,"kind":"position","auction":"x","bidder":"a","position":0}"#,
        "accepted 1 1730700000",
    ),
    (
        r#"1730700000 k1 {"number":2,"kind":"bid","auction":"x","bidder":"a","rate":"5.000","amount":350000000}"#,
        "accepted 2 1730700000",
    ),
    (
        r#"1730700000 k1 {"number":3,"kind":"noncompetitive","auction":"x","bidder":"b","amount":10000000}"#,
        "accepted 3 1730700000",
    ),
    (
        r#"1730700000 k1 {"number":4,"kind":"noncompetitive","auction":"x","bidder":"b","amount":100}"#,
        "refused 18 NoncompetitiveCeiling",
    ),
    (
        r#"1730700000 k1 {"number":4,"kind":"bid","auction":"x","bidder":"b","rate":"5.000","amount":100}"#,
        "refused 19 MixedBids",
    ),
    (
        r#"1730700000 k1 {"number":4,"kind":"cancel","auction":"x","bid":3}"#,
        "accepted 4 1730700000",
    ),
    (
        r#"1730700000 k1 {"number":5,"kind":"bid","auction":"x","bidder":"b","rate":"5.000","amount":100}"#,
        "accepted 5 1730700000",
    ),
    (
        r#"1730700000 k1 {"number":6,"kind":"cancel","auction":"x","bid":3}"#,
        "refused 31 AlreadyCancelled",
    ),
    // Above 395.600 percent a bill of 91 days has no price.
    (
        r#"1730700000 k1 {"number":6,"kind":"bid","auction":"x","bidder":"a","rate":"395.605","amount":100}"#,
        "refused 16 RateTooHigh",
    ),
    (
        r#"1730700000 k1 {"number":6,"kind":"bid","auction":"x","bidder":"a","rate":"395.600","amount":100}"#,
        "accepted 6 1730700000",
    ),
];

/// A second before each closing, and at it.
const CLOSINGS: [(&str, &str); 4] = [
    (
        r#"1730735999 k1 {"number":1,"kind":"noncompetitive","auction":"x","bidder":"a","amount":100}"#,
        "accepted 1 1730735999",
    ),
    (
        r#"1730736000 k1 {"number":2,"kind":"noncompetitive","auction":"x","bidder":"a","amount":100}"#,
        "refused 17 Late 1730736000 1730736000",
    ),
    (
        r#"1730737799 k1 {"number":2,"kind":"bid","auction":"x","bidder":"b","rate":"5.000","amount":100}"#,
        "accepted 2 1730737799",
    ),
    (
        r#"1730737800 k1 {"number":3,"kind":"bid","auction":"x","bidder":"b","rate":"5.000","amount":100}"#,
        "refused 17 Late 1730737800 1730737800",
    ),
];

/// Texts that are no request, a key that nobody has, and moments that don't go back.
const READINGS: [(&str, &str); 8] = [
    ("1730700000 k1 {", "refused 5 BadJson"),
    ("1730700000 k1 []", "refused 6 BadShape body"),
    ("1730700000 k1 {}", "refused 6 BadShape number"),
    (
        r#"1730700000 k1 {"number":1,"kind":"bid","auction":"x","bidder":"a","rate":"5.322","amount":100}"#,
        "refused 6 BadShape rate",
    ),
    ("1730700000 k9 {", "refused 1 UnknownKey"),
    ("1730700000 op:boot {}", "refused 1 UnknownKey"),
    (
        r#"1730700001 k1 {"number":1,"kind":"bid","auction":"x","bidder":"a","rate":"5.000","amount":100}"#,
        "accepted 1 1730700001",
    ),
    (
        r#"1730700000 k1 {"number":2,"kind":"bid","auction":"x","bidder":"a","rate":"5.000","amount":100}"#,
        "accepted 2 1730700001",
    ),
];

/// Each auction has one add-on, which the operator sends before the closing of competitive bids. It is told beside the
/// offering, and paid at the price of the bids.
const ADD_ONS: [(&str, &str); 13] = [
    (
        r#"1730700000 op:root {"number":4,"kind":"register","submitter":"dealer2","key":"k2"}"#,
        "accepted 4 1730700000",
    ),
    (
        r#"1730700000 op:root {"number":5,"kind":"announce","auction":"bill14","cusip":"912797AB3","offering":1000000,"minimum":100,"ceiling":1000000,"floor":1000000,"threshold":1000000,"date":"2024-11-04","nc_close":"11:00","c_close":"11:30","issue":"2024-11-07","maturity":"2025-02-15"}"#,
        "accepted 5 1730700000",
    ),
    (
        r#"1730700000 op:root {"number":6,"kind":"addon","auction":"bill13","holder":"dealer2","amount":5000000000}"#,
        "accepted 6 1730700000",
    ),
    (
        r#"1730700000 op:root {"number":7,"kind":"addon","auction":"bill13","holder":"dealer1","amount":100}"#,
        "refused 46 AddOnExists",
    ),
    (
        r#"1730700000 k1 {"number":1,"kind":"addon","auction":"bill14","holder":"dealer1","amount":100}"#,
        "refused 2 NotPermitted",
    ),
    (
        r#"1730737799 k1 {"number":1,"kind":"bid","auction":"bill13","bidder":"fund1","rate":"4.27","amount":20000000000}"#,
        "accepted 1 1730737799",
    ),
    (
        r#"1730737800 op:root {"number":7,"kind":"addon","auction":"bill14","holder":"dealer2","amount":100}"#,
        "refused 17 Late 1730737800 1730737800",
    ),
    (
        r#"1730737800 op:root {"number":7,"kind":"publish","auction":"bill13"}"#,
        "accepted 7 1730737800",
    ),
    (
        r#"1730737800 k1 {"kind":"results","auction":"bill13"}"#,
        "lines 17
auction bill13
cusip 912797AA5
issue 2024-11-07
maturity 2025-02-06
days 91
offering 76000000000
noncompetitive 0
competitive 20000000000
addon 5000000000
total 25000000000
high 4.270
allotted 100.00
median 4.270
low 4.270
price 98.920639
investment 4.377
bids at lower rates were accepted in full",
    ),
    (
        r#"1730737800 k1 {"kind":"awards","auction":"bill13"}"#,
        "lines 1\nfund1 20000000000 19784127800.00",
    ),
    (
        r#"1730737800 k2 {"kind":"awards","auction":"bill13"}"#,
        "lines 1\n+ 5000000000 4946031950.00",
    ),
    (
        r#"1730955600 op:root {"number":8,"kind":"settle","auction":"bill13"}"#,
        "accepted 8 1730955600",
    ),
    (
        r#"1730955600 k2 {"kind":"holdings"}"#,
        "lines 1\n912797AA5 5000000000 0 5000000000",
    ),
];

/// What stands in front of them: a dealer, its fund and the announcement of a bill.
const ANNOUNCED: &str = opened!("\n");

const ANNOUNCED_REPLIES: &str = "accepted 1 1730700000
accepted 2 1730700000
accepted 3 1730700000
";

/// Announcements with one fault each.
const ANNOUNCEMENTS: [(&str, &str); 6] = [
    (
        r#"1730700000 op:root {"number":7,"kind":"announce","auction":"y","cusip":"912797AA4","offering":1000000000,"minimum":100,"ceiling":10000000,"floor":1000000,"threshold":350000000,"date":"2024-11-04","nc_close":"11:00","c_close":"11:30","issue":"2024-11-07","maturity":"2025-02-06"}"#,
        "refused 41 BadCusip",
    ),
    (
        r#"1730700000 op:root {"number":7,"kind":"announce","auction":"y","cusip":"912797aa5","offering":1000000000,"minimum":100,"ceiling":10000000,"floor":1000000,"threshold":350000000,"date":"2024-11-04","nc_close":"11:00","c_close":"11:30","issue":"2024-11-07","maturity":"2025-02-06"}"#,
        "refused 41 BadCusip",
    ),
    (
        r#"1730700000 op:root {"number":7,"kind":"announce","auction":"y","cusip":"912797AB3","offering":1000000000,"minimum":100,"ceiling":10000000,"floor":1000000,"threshold":350000000,"date":"2024-11-04","nc_close":"11:00","c_close":"11:30","issue":"2024-11-07","maturity":"2024-11-07"}"#,
        "refused 42 BadDates",
    ),
    (
        r#"1730700000 op:root {"number":7,"kind":"announce","auction":"y","cusip":"912797AB3","offering":1000100,"minimum":100,"ceiling":10000000,"floor":1000000,"threshold":350000000,"date":"2024-11-04","nc_close":"11:00","c_close":"11:30","issue":"2024-11-07","maturity":"2025-02-06"}"#,
        "refused 43 BadAmounts",
    ),
    (
        r#"1730700000 op:root {"number":7,"kind":"announce","auction":"y","cusip":"912797AB3","offering":1000000000,"minimum":100,"ceiling":10000000,"floor":1000000,"threshold":350000000,"date":"2024-11-04","nc_close":"11:30","c_close":"11:00","issue":"2024-11-07","maturity":"2025-02-06"}"#,
        "refused 44 BadClosing",
    ),
    (
        r#"1730700000 op:root {"number":7,"kind":"announce","auction":"y","cusip":"912797AB3","offering":1000000000,"minimum":100,"ceiling":10000000,"floor":1000000,"threshold":350000000,"date":"2024-11-04","nc_close":"11:00","c_close":"11:30","issue":"2024-11-07","maturity":"2025-02-06"}"#,
        "accepted 7 1730700000",
    ),
];

// The ordinary auction, in pieces of this size.
fn goes_through<R: Abort + Threads + Wait + Sync>(host: &Host<'_, R>, piece: usize) -> bool {
    let told = joined(host.rt, host.alloc, &[ORDINARY_REPLIES, RESULTS]);
    runs(host, &WORDS, ORDINARY, piece, 0, &told, "")
}

#[test]
fn an_ordinary_auction_goes_from_its_announcement_to_its_awards(rt: HostRuntime) {
    let host = Host {
        rt: &rt,
        alloc: rt.alloc(),
    };
    assert!(rt; goes_through(&host, 1));
    assert!(rt; goes_through(&host, 100));
    assert!(rt; goes_through(&host, ORDINARY.len()));
}

/// The lines behind the first ones, and the end of the script.
fn script(rt: &impl Abort, alloc: Global, first: &str, cases: &[(&str, &str)]) -> String {
    let mut text = first.to_string(alloc).expect(rt, "memory");
    for (line, _) in cases {
        text.push_str(line).expect(rt, "memory");
        text.push('\n').expect(rt, "memory");
    }
    text.push_str("end\n").expect(rt, "memory");
    text
}

/// The replies to them, behind those to the first ones.
fn replies(rt: &impl Abort, alloc: Global, first: &str, cases: &[(&str, &str)]) -> String {
    let mut text = first.to_string(alloc).expect(rt, "memory");
    for (_, reply) in cases {
        text.push_str(reply).expect(rt, "memory");
        text.push('\n').expect(rt, "memory");
    }
    text
}

/// The first lines are replied to so, and each of the others as it says.
pub fn are_replied<R: Abort + Threads + Wait + Sync>(
    host: &Host<'_, R>,
    first: &str,
    first_replies: &str,
    cases: &[(&str, &str)],
) -> bool {
    let text = script(host.rt, host.alloc, first, cases);
    let told = replies(host.rt, host.alloc, first_replies, cases);
    runs(host, &WORDS, &text, 4096, 0, &told, "")
}

#[test]
fn each_line_has_its_reply(rt: HostRuntime) {
    let host = Host {
        rt: &rt,
        alloc: rt.alloc(),
    };
    assert!(rt; are_replied(&host, OPENED, OPENED_REPLIES, &BID_RULES));
    assert!(rt; are_replied(&host, OPENED, OPENED_REPLIES, &CLOSINGS));
    assert!(rt; are_replied(&host, OPENED, OPENED_REPLIES, &READINGS));
    assert!(rt; are_replied(&host, OPENED, OPENED_REPLIES, &ANNOUNCEMENTS));
    assert!(rt; are_replied(&host, ANNOUNCED, ANNOUNCED_REPLIES, &ADD_ONS));
}

const FIRST: &str = registered!();

// The first message, and what stands right behind it: that is replied to so, and then this is told.
fn stops<R: Abort + Threads + Wait + Sync>(
    host: &Host<'_, R>,
    rest: &str,
    out: &str,
    told: &str,
) -> bool {
    let text = joined(host.rt, host.alloc, &[FIRST, rest]);
    let out = joined(host.rt, host.alloc, &["accepted 1 1730700000\n", out]);
    runs(host, &WORDS, &text, 7, 3, &out, told)
}

#[test]
fn lines_before_a_bad_one_are_acted_on(rt: HostRuntime) {
    let host = Host {
        rt: &rt,
        alloc: rt.alloc(),
    };
    let second = "bad input at line 2\n";
    assert!(rt; stops(&host, "\nk1 {}\nend\n", "", second));
    assert!(rt; stops(&host, "\n", "", second));
    assert!(rt; stops(&host, "", "", second));
    assert!(rt; stops(&host, "\n1730700000 k1 \nend\n", "", second));
    assert!(rt; stops(&host, "\n1730700000  k1 {}\nend\n", "", second));
    assert!(rt; stops(&host, "\n946702799 k1 {}\nend\n", "", second));
    assert!(rt; stops(&host, "\nend \n", "", second));
    assert!(rt;
        stops(
            &host,
            "\n1730700000 k1 {\n\n",
            "refused 5 BadJson\n",
            "bad input at line 3\n",
        )
    );
}

#[test]
fn a_script_may_be_empty_and_its_last_line_may_lack_the_line_feed(rt: HostRuntime) {
    let host = Host {
        rt: &rt,
        alloc: rt.alloc(),
    };
    let words = ["run", "--op=root"];
    assert!(rt; runs(&host, &words, "end\n", 3, 0, "", ""));
    assert!(rt; runs(&host, &words, "end", 3, 0, "", ""));
    assert!(rt; runs(&host, &words, "end\r\nwhat comes behind", 3, 0, "", ""));
    assert!(rt; runs(&host, &words, "end\nend\n", 3, 0, "", ""));
}

#[test]
fn faulty_words_are_told(rt: HostRuntime) {
    let host = Host {
        rt: &rt,
        alloc: rt.alloc(),
    };
    assert!(rt; runs(&host, &["run"], "end\n", 3, 2, "", "usage\n"));
    assert!(rt; runs(&host, &["run", "--op"], "end\n", 3, 2, "", "usage\n"));
    assert!(rt;
        runs(
            &host,
            &["run", "--op", "Root"],
            "end\n",
            3,
            2,
            "",
            "usage\n"
        )
    );
    assert!(rt;
        runs(
            &host,
            &["run", "--op", "root", "more"],
            "end\n",
            3,
            2,
            "",
            "usage\n"
        )
    );
    assert!(rt;
        runs(
            &host,
            &["serve", "--op", "root"],
            "end\n",
            3,
            2,
            "",
            "usage\n"
        )
    );
    assert!(rt; runs(&host, &["trial", "1", "0"], "end\n", 3, 2, "", "usage\n"));
    assert!(rt;
        runs(
            &host,
            &["import", "--op", "root"],
            "end\n",
            3,
            2,
            "",
            "usage\n"
        )
    );
}

pub const TWO: &str = registered!("\n1730700000 k1 {}\nend\n");

const TWO_REPLIES: &str = "accepted 1 1730700000\nrefused 6 BadShape number\n";

// Each byte is a read, and this one fails.
fn is_cut_off<R: Abort + Threads + Wait + Sync>(host: &Host<'_, R>, read: u64, out: &str) -> bool {
    ends(host, &WORDS, TWO, 1, &[read], &[], 4, out, "read fault\n")
}

// The lines end behind 83, 100 and 104 bytes, and nothing is read behind them.
#[test]
fn whole_lines_are_acted_on_where_a_read_fails(rt: HostRuntime) {
    let host = Host {
        rt: &rt,
        alloc: rt.alloc(),
    };
    assert!(rt; is_cut_off(&host, 0, ""));
    assert!(rt; is_cut_off(&host, 82, ""));
    assert!(rt; is_cut_off(&host, 83, "accepted 1 1730700000\n"));
    assert!(rt; is_cut_off(&host, 99, "accepted 1 1730700000\n"));
    assert!(rt; is_cut_off(&host, 100, TWO_REPLIES));
    assert!(rt; is_cut_off(&host, 103, TWO_REPLIES));
    assert!(rt; ends(&host, &WORDS, TWO, 1, &[104], &[], 0, TWO_REPLIES, ""));
}

// Each line has one write.
#[test]
fn a_write_that_fails_ends_the_run(rt: HostRuntime) {
    let host = Host {
        rt: &rt,
        alloc: rt.alloc(),
    };
    let first = "accepted 1 1730700000\n";
    assert!(rt; ends(&host, &WORDS, TWO, 64, &[], &[0], 5, "", "write fault\n"));
    assert!(rt; ends(&host, &WORDS, TWO, 64, &[], &[1], 5, first, "write fault\n"));
    assert!(rt; ends(&host, &WORDS, TWO, 64, &[], &[2], 0, TWO_REPLIES, ""));
}

// What dealer1 sends before the others' bids, and behind them.
const BEFORE: &str =
    r#"1730700001 k1 {"number":1,"kind":"bid","auction":"x","bidder":"a","rate":"5.000","amount":300000000}
1730700001 k1 {"number":2,"kind":"noncompetitive","auction":"x","bidder":"b","amount":100}
"#;

const BEHIND: &str =
    r#"1730700001 k1 {"number":1,"kind":"bid","auction":"x","bidder":"a","rate":"5.000","amount":300000000}
1730700001 k1 {"number":1,"kind":"bid","auction":"x","bidder":"a","rate":"5.000","amount":100}
1730700001 k1 {"number":3,"kind":"bid","auction":"x","bidder":"c","rate":"5.000","amount":100}
1730700001 k1 {"number":3,"kind":"bid","auction":"x","bidder":"a","rate":"5.000","amount":50000000}
1730700001 k1 {"number":3,"kind":"cancel","auction":"x","bid":1}
1730700001 k1 {"kind":"results","auction":"x"}
1730700001 k1 {"kind":"bids","auction":"x"}
end
"#;

const BEFORE_REPLIES: &str = "accepted 1 1730700001
accepted 2 1730700001
";

const BEHIND_REPLIES: &str = "accepted 1 1730700001
refused 3 NumberReused
refused 11 UnknownBidder
refused 20 PositionRequired
accepted 3 1730700001
refused 62 NotPublished
lines 2
1 a 5.000 300000000 cancelled
2 b n 100 live
";

// A thousand bids of another dealer.
fn other_bids(rt: &impl Abort, alloc: Global) -> String {
    let mut bids = String::new(alloc);
    for number in 1..=1000 {
        let bid = format!(in alloc;
            "1730700001 k2 {{\"number\":{number},\"kind\":\"bid\",\"auction\":\"x\",\"bidder\":\"c\",\
            \"rate\":\"4.000\",\"amount\":100}}\n"
        )
        .expect(rt, "memory");
        bids.push_str(&bid).expect(rt, "memory");
    }
    bids
}

// The replies to them.
fn other_replies(rt: &impl Abort, alloc: Global) -> String {
    let mut accepted = String::new(alloc);
    for number in 1..=1000 {
        let reply = format!(in alloc; "accepted {number} 1730700001\n").expect(rt, "memory");
        accepted.push_str(&reply).expect(rt, "memory");
    }
    accepted
}

// Dealer1's lines with those of others between, and the replies.
fn is_told_the_same<R: Abort + Threads + Wait + Sync>(
    host: &Host<'_, R>,
    others: &str,
    replies: &str,
) -> bool {
    let text = joined(host.rt, host.alloc, &[OPENED, BEFORE, others, BEHIND]);
    let told = joined(
        host.rt,
        host.alloc,
        &[OPENED_REPLIES, BEFORE_REPLIES, replies, BEHIND_REPLIES],
    );
    runs(host, &WORDS, &text, 8192, 0, &told, "")
}

#[test]
fn replies_are_the_same_where_others_send_a_thousand_bids(rt: HostRuntime) {
    let host = Host {
        rt: &rt,
        alloc: rt.alloc(),
    };
    let bids = other_bids(&rt, rt.alloc());
    let accepted = other_replies(&rt, rt.alloc());
    assert!(rt; is_told_the_same(&host, "", ""));
    assert!(rt; is_told_the_same(&host, &bids, &accepted));
}
