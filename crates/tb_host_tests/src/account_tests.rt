//! Runs in which bills are settled, moved and redeemed. The replies are worked out by hand from the rules.
use crate::run_tests::{WORDS, are_replied};
use crate::tests::{Host, joined, runs};
use std::alloc::Global;
use std::process::Abort;

/// A bill of 1,000: 400 and 400 are transferred, 500 are pledged and 300 of them released. It matures on a Saturday
/// before a holiday, and is paid on the Tuesday.
const WORKED: [(&str, &str); 27] = [
    (
        r#"1730700000 op:root {"number":1,"kind":"register","submitter":"dealer1","key":"k1"}"#,
        "accepted 1 1730700000",
    ),
    (
        r#"1730700000 op:root {"number":2,"kind":"register","submitter":"dealer2","key":"k2"}"#,
        "accepted 2 1730700000",
    ),
    (
        r#"1730700000 op:root {"number":3,"kind":"enrol","bidder":"fund1","submitter":"dealer1"}"#,
        "accepted 3 1730700000",
    ),
    (
        r#"1730700000 op:root {"number":4,"kind":"announce","auction":"sat1","cusip":"912797AB3","offering":1000000,"minimum":100,"ceiling":1000000,"floor":1000000,"threshold":1000000,"date":"2024-11-04","nc_close":"11:00","c_close":"11:30","issue":"2024-11-07","maturity":"2025-02-15"}"#,
        "accepted 4 1730700000",
    ),
    (
        r#"1730700000 op:root {"number":6,"kind":"holiday","day":"2025-02-17"}"#,
        "accepted 6 1730700000",
    ),
    (
        r#"1730700000 k1 {"number":1,"kind":"bid","auction":"sat1","bidder":"fund1","rate":"4.000","amount":1000}"#,
        "accepted 1 1730700000",
    ),
    (
        r#"1730737800 op:root {"number":5,"kind":"publish","auction":"sat1"}"#,
        "accepted 5 1730737800",
    ),
    (
        r#"1730737800 op:root {"number":7,"kind":"redeem","cusip":"912797AB3"}"#,
        "refused 74 Unsettled sat1",
    ),
    (
        r#"1730955599 op:root {"number":7,"kind":"settle","auction":"sat1"}"#,
        "refused 63 NotIssueDate 2024-11-07",
    ),
    (
        r#"1730955600 op:root {"number":7,"kind":"settle","auction":"sat1"}"#,
        "accepted 7 1730955600",
    ),
    (
        r#"1730955600 k1 {"number":2,"kind":"transfer","cusip":"912797AB3","to":"dealer2","amount":400}"#,
        "accepted 2 1730955600",
    ),
    (
        r#"1730955600 k1 {"number":3,"kind":"transfer","cusip":"912797AB3","to":"dealer2","amount":700}"#,
        "refused 73 InsufficientFree 600",
    ),
    (
        r#"1730955600 k1 {"number":12,"kind":"pledge","cusip":"912797AB3","to":"dealer2","amount":500}"#,
        "accepted 12 1730955600",
    ),
    (
        r#"1730955600 k1 {"number":3,"kind":"transfer","cusip":"912797AB3","to":"dealer2","amount":200}"#,
        "refused 73 InsufficientFree 100",
    ),
    (
        r#"1730955600 k2 {"number":1,"kind":"release","holder":"dealer1","pledge":12,"amount":300}"#,
        "accepted 1 1730955600",
    ),
    (
        r#"1730955600 k2 {"number":2,"kind":"release","holder":"dealer1","pledge":12,"amount":300}"#,
        "refused 80 MoreThanPledged 200",
    ),
    (
        r#"1730955600 k1 {"number":3,"kind":"release","holder":"dealer1","pledge":12,"amount":100}"#,
        "refused 79 NotPledgee",
    ),
    (
        r#"1730955600 k1 {"number":3,"kind":"transfer","cusip":"912797AB3","to":"dealer2","amount":400}"#,
        "accepted 3 1730955600",
    ),
    (
        r#"1730955600 k1 {"kind":"holdings"}"#,
        "lines 1\n912797AB3 200 200 0",
    ),
    (
        r#"1730955600 k2 {"kind":"holdings"}"#,
        "lines 1\n912797AB3 800 0 800",
    ),
    (
        r#"1739854799 op:root {"number":8,"kind":"redeem","cusip":"912797AB3"}"#,
        "refused 81 NotDue 2025-02-18",
    ),
    (
        r#"1739854800 op:root {"number":8,"kind":"redeem","cusip":"912797AB3"}"#,
        "accepted 8 1739854800",
    ),
    (
        r#"1739854800 op:root {"kind":"redemption","cusip":"912797AB3"}"#,
        "lines 3\ndealer1 200\ndealer2 800\ntotal 1000",
    ),
    (r#"1739854800 k1 {"kind":"holdings"}"#, "lines 0"),
    (
        r#"1739854800 op:root {"number":9,"kind":"redeem","cusip":"912797AB3"}"#,
        "refused 82 AlreadyRedeemed",
    ),
    (
        r#"1739854800 op:root {"number":9,"kind":"announce","auction":"sat2","cusip":"912797AB3","offering":1000000,"minimum":100,"ceiling":1000000,"floor":1000000,"threshold":1000000,"date":"2024-11-04","nc_close":"11:00","c_close":"11:30","issue":"2024-11-07","maturity":"2025-02-15"}"#,
        "refused 82 AlreadyRedeemed",
    ),
    (
        r#"1739854800 k2 {"number":2,"kind":"release","holder":"dealer1","pledge":12,"amount":100}"#,
        "refused 80 MoreThanPledged 0",
    ),
];

/// A bill that is sold twice, a month apart. In the first auction 7,000,000 lie below the stop, and of 3,500,000 at it
/// 3,000,000 are missing: 85.72 percent of them are 3,000,200. In the second 100,000 and 350,000 are sold.
const REOPENED: [(&str, &str); 25] = [
    (
        r#"1730700000 op:root {"number":1,"kind":"register","submitter":"dealer1","key":"k1"}"#,
        "accepted 1 1730700000",
    ),
    (
        r#"1730700000 op:root {"number":2,"kind":"register","submitter":"dealer2","key":"k2"}"#,
        "accepted 2 1730700000",
    ),
    (
        r#"1730700000 op:root {"number":3,"kind":"enrol","bidder":"fund1","submitter":"dealer1"}"#,
        "accepted 3 1730700000",
    ),
    (
        r#"1730700000 op:root {"number":4,"kind":"enrol","bidder":"fund2","submitter":"dealer1"}"#,
        "accepted 4 1730700000",
    ),
    (
        r#"1730700000 op:root {"number":5,"kind":"enrol","bidder":"fund3","submitter":"dealer2"}"#,
        "accepted 5 1730700000",
    ),
    (
        r#"1730700000 op:root {"number":6,"kind":"announce","auction":"bill13","cusip":"912797AA5","offering":10000000,"minimum":100,"ceiling":1000000,"floor":1000000,"threshold":10000000,"date":"2024-11-04","nc_close":"11:00","c_close":"11:30","issue":"2024-11-07","maturity":"2025-02-06"}"#,
        "accepted 6 1730700000",
    ),
    (
        r#"1730700000 op:root {"number":7,"kind":"announce","auction":"bill9","cusip":"912797AA5","offering":1000000,"minimum":100,"ceiling":1000000,"floor":100,"threshold":1000000,"date":"2024-12-02","nc_close":"11:00","c_close":"11:30","issue":"2024-12-05","maturity":"2025-02-06"}"#,
        "accepted 7 1730700000",
    ),
    (
        r#"1730700000 k1 {"number":1,"kind":"bid","auction":"bill13","bidder":"fund1","rate":"4.270","amount":3500000}"#,
        "accepted 1 1730700000",
    ),
    (
        r#"1730700000 k1 {"number":2,"kind":"bid","auction":"bill13","bidder":"fund2","rate":"4.280","amount":3500000}"#,
        "accepted 2 1730700000",
    ),
    (
        r#"1730700000 k2 {"number":1,"kind":"bid","auction":"bill13","bidder":"fund3","rate":"4.290","amount":4000000}"#,
        "accepted 1 1730700000",
    ),
    (
        r#"1730737800 op:root {"number":8,"kind":"publish","auction":"bill13"}"#,
        "accepted 8 1730737800",
    ),
    (
        r#"1730955600 op:root {"number":9,"kind":"settle","auction":"bill13"}"#,
        "accepted 9 1730955600",
    ),
    (
        r#"1730955600 k1 {"kind":"holdings"}"#,
        "lines 1\n912797AA5 7000000 0 7000000",
    ),
    (
        r#"1730955600 k2 {"kind":"holdings"}"#,
        "lines 1\n912797AA5 3000200 0 3000200",
    ),
    (
        r#"1730955600 k1 {"number":3,"kind":"transfer","cusip":"912797AA5","to":"dealer2","amount":1000000}"#,
        "accepted 3 1730955600",
    ),
    (
        r#"1733100000 k1 {"number":4,"kind":"noncompetitive","auction":"bill9","bidder":"fund1","amount":100000}"#,
        "accepted 4 1733100000",
    ),
    (
        r#"1733100000 k2 {"number":2,"kind":"bid","auction":"bill9","bidder":"fund3","rate":"4.000","amount":350000}"#,
        "accepted 2 1733100000",
    ),
    (
        r#"1733157000 op:root {"number":10,"kind":"publish","auction":"bill9"}"#,
        "accepted 10 1733157000",
    ),
    (
        r#"1733374799 op:root {"number":11,"kind":"settle","auction":"bill9"}"#,
        "refused 63 NotIssueDate 2024-12-05",
    ),
    (
        r#"1733374799 k1 {"kind":"holdings"}"#,
        "lines 1\n912797AA5 6000000 0 6000000",
    ),
    (
        r#"1733374800 op:root {"number":11,"kind":"settle","auction":"bill9"}"#,
        "accepted 11 1733374800",
    ),
    (
        r#"1733374800 k1 {"kind":"holdings"}"#,
        "lines 1\n912797AA5 6100000 0 6100000",
    ),
    (
        r#"1733374800 k2 {"kind":"holdings"}"#,
        "lines 1\n912797AA5 4350200 0 4350200",
    ),
    (
        r#"1738818000 op:root {"number":12,"kind":"redeem","cusip":"912797AA5"}"#,
        "accepted 12 1738818000",
    ),
    (
        r#"1738818000 op:root {"kind":"redemption","cusip":"912797AA5"}"#,
        "lines 3\ndealer1 6100000\ndealer2 4350200\ntotal 10450200",
    ),
];

#[test]
fn bills_are_settled_moved_and_redeemed(rt: HostRuntime) {
    let host = Host {
        rt: &rt,
        alloc: rt.alloc(),
    };
    assert!(rt; are_replied(&host, "", "", &WORKED));
    assert!(rt; are_replied(&host, "", "", &REOPENED));
}

// The registrations of so many submitters.
fn registrations(rt: &impl Abort, alloc: Global, count: u64) -> String {
    let mut text = String::new(alloc);
    for number in 1..=count {
        let line = format!(in alloc;
            "1730700000 op:root {{\"number\":{number},\"kind\":\"register\",\"submitter\":\"s{number}\",\
            \"key\":\"k{number}\"}}\n"
        )
        .expect(rt, "memory");
        text.push_str(&line).expect(rt, "memory");
    }
    text
}

// The replies to them.
fn acceptances(rt: &impl Abort, alloc: Global, count: u64) -> String {
    let mut text = String::new(alloc);
    for number in 1..=count {
        let line = format!(in alloc; "accepted {number} 1730700000\n").expect(rt, "memory");
        text.push_str(&line).expect(rt, "memory");
    }
    text
}

#[test]
fn a_roster_of_4096_submitters_is_full(rt: HostRuntime) {
    let host = Host {
        rt: &rt,
        alloc: rt.alloc(),
    };
    let alloc = rt.alloc();
    let text = joined(&rt, alloc, &[&registrations(&rt, alloc, 4097), "end\n"]);
    let accepted = acceptances(&rt, alloc, 4096);
    let told = joined(&rt, alloc, &[&accepted, "refused 51 RosterFull\n"]);
    assert!(rt; runs(&host, &WORDS, &text, 8192, 0, &told, ""));
}
