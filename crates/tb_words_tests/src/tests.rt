//! Tests of the public call: command lines inside and outside the set, each read by both readers.
use std::process::Abort;
use std::test::Fail;
use tb_message::{Key, Query};
use tb_terms::Cusip;
use tb_units::Ident;
use tb_words::*;

// The words of a line, which one blank parts; the empty line has none.
fn words_of<R: AllocGlobal + Abort>(rt: &R, line: &str) -> Vec<String> {
    let mut words = Vec::new(rt.alloc());
    for word in line.split(' ') {
        if !line.is_empty() {
            let word = String::from_str(rt.alloc(), word).expect(rt, "memory");
            words.push(word).expect(rt, "memory");
        }
    }
    words
}

fn name(rt: &impl Abort, text: &str) -> Ident {
    Ident::read(text).expect(rt, "a name")
}

fn reads_as<R: AllocGlobal + Abort>(
    rt: &R,
    line: &str,
    wanted: Result<Command, WordsFault>,
) -> bool {
    let words = words_of(rt, line);
    read_words(rt.alloc(), words.as_slice()) == wanted
}

// Both readers take the line, as the same command.
fn taken<R: AllocGlobal + Abort>(rt: &R, line: &str) -> bool {
    let words = words_of(rt, line);
    let plain = plain_command(words.as_slice());
    let taken = taken_by_clap(rt.alloc(), words.as_slice()).expect(rt, "memory");
    plain.is_some() && taken == plain
}

// Neither reader takes the line. The plain one refuses what clap takes behind `--`.
fn refused<R: AllocGlobal + Abort>(rt: &R, line: &str) -> bool {
    let words = words_of(rt, line);
    let taken = taken_by_clap(rt.alloc(), words.as_slice()).expect(rt, "memory");
    plain_command(words.as_slice()).is_none() && taken.is_none()
}

fn root(rt: &impl Abort) -> Ident {
    name(rt, "root")
}

fn submitter_key(rt: &impl Abort) -> Key {
    Key::Submitter(name(rt, "k1"))
}

#[test]
fn commands_have_their_values(rt: HostRuntime) {
    assert!(rt; reads_as(&rt, "award full", Ok(Command::Award { full: true })));
    assert!(rt;
        reads_as(
            &rt,
            "run --op=root",
            Ok(Command::Run {
                operator: root(&rt),
            }),
        )
    );
    assert!(rt;
        reads_as(
            &rt,
            "serve --port 8080 --op root --links=1 --workers 2",
            Ok(Command::Serve {
                operator: root(&rt),
                port: 8080,
                workers: 2,
                links: 1,
            }),
        )
    );
    assert!(rt;
        reads_as(
            &rt,
            "import --key k1 --op root",
            Ok(Command::Import {
                operator: root(&rt),
                key: submitter_key(&rt),
            }),
        )
    );
    assert!(rt;
        reads_as(
            &rt,
            "report holdings --key k1 --op root --csv",
            Ok(Command::Report {
                operator: root(&rt),
                key: submitter_key(&rt),
                query: Query::Holdings,
                csv: true,
            }),
        )
    );
    assert!(rt;
        reads_as(
            &rt,
            "report redemption 912797AB3 --op root --key op:root",
            Ok(Command::Report {
                operator: root(&rt),
                key: Key::Operator(root(&rt)),
                query: Query::Redemption(Cusip {
                    bytes: *b"912797AB3",
                }),
                csv: false,
            }),
        )
    );
    assert!(rt;
        reads_as(
            &rt,
            "trial 18446744073709551615 1",
            Ok(Command::Trial {
                seed: u64::MAX,
                count: 1,
            }),
        )
    );
    assert!(rt; reads_as(&rt, "migrate", Ok(Command::Migrate)));
    assert!(rt; reads_as(&rt, "check", Ok(Command::Check)));
    assert!(rt;
        reads_as(
            &rt,
            "follow send 18446744073709551615",
            Ok(Command::FollowSend { from: u64::MAX }),
        )
    );
    assert!(rt; reads_as(&rt, "follow take", Ok(Command::FollowTake)));
    assert!(rt; reads_as(&rt, "register", Ok(Command::Register { cusip: None })));
    assert!(rt;
        reads_as(
            &rt,
            "register --cusip 912797AA5",
            Ok(Command::Register {
                cusip: Some(Cusip {
                    bytes: *b"912797AA5",
                }),
            }),
        )
    );
    assert!(rt; reads_as(&rt, "award more", Err(WordsFault::Usage)));
}

#[test]
fn lines_inside_the_set_are_taken_by_both(rt: HostRuntime) {
    assert!(rt; taken(&rt, "award"));
    assert!(rt; taken(&rt, "award full"));
    assert!(rt; taken(&rt, "run --op root"));
    assert!(rt; taken(&rt, "run --op=root"));
    assert!(rt; taken(&rt, "serve --op root --port 8080 --workers 2 --links 1"));
    assert!(rt;
        taken(
            &rt,
            "serve --links=1000000 --workers=64 --port=65535 --op=root"
        )
    );
    assert!(rt; taken(&rt, "serve --port 1 --op root --links 1 --workers 1"));
    assert!(rt; taken(&rt, "import --op root --key k1"));
    assert!(rt; taken(&rt, "import --key=op:root --op=root"));
    assert!(rt; taken(&rt, "migrate"));
    assert!(rt; taken(&rt, "check"));
    assert!(rt; taken(&rt, "follow send 0"));
    assert!(rt; taken(&rt, "follow take"));
    assert!(rt; taken(&rt, "register"));
    assert!(rt; taken(&rt, "register --cusip=912797AA4"));
    assert!(rt; taken(&rt, "register --cusip 0ZZZZZZZ9"));
    assert!(rt; taken(&rt, "trial 1 1"));
    assert!(rt; taken(&rt, "trial 0 1000000"));
}

#[test]
fn queries_inside_the_set_are_taken_by_both(rt: HostRuntime) {
    assert!(rt; taken(&rt, "report terms bill13 --op root --key k1"));
    assert!(rt; taken(&rt, "report --op root --key k1 terms bill13"));
    assert!(rt; taken(&rt, "report --op root results --key k1 bill13"));
    assert!(rt; taken(&rt, "report awards bill13 --op root --key k1 --csv"));
    assert!(rt; taken(&rt, "report --csv awards bill13 --op root --key k1"));
    assert!(rt; taken(&rt, "report awards bill13 --op root --key k1"));
    assert!(rt; taken(&rt, "report bids bill13 --op=root --key=k1"));
    assert!(rt; taken(&rt, "report holdings --op root --key k1"));
    assert!(rt; taken(&rt, "report holdings --csv --op root --key k1"));
    assert!(rt; taken(&rt, "report redemption a.b,c*d/e --op root --key op:root"));
}

#[test]
fn lines_outside_the_set_are_taken_by_neither(rt: HostRuntime) {
    assert!(rt; refused(&rt, ""));
    assert!(rt; refused(&rt, "help"));
    assert!(rt; refused(&rt, "--help"));
    assert!(rt; refused(&rt, "--version"));
    assert!(rt; refused(&rt, "award --help"));
    assert!(rt; refused(&rt, "award -h"));
    assert!(rt; refused(&rt, "award more"));
    assert!(rt; refused(&rt, "award full full"));
    assert!(rt; refused(&rt, "award --full"));
    assert!(rt; refused(&rt, "award -"));
    assert!(rt; refused(&rt, "Award"));
}

#[test]
fn words_of_run_outside_the_set(rt: HostRuntime) {
    assert!(rt; refused(&rt, "run"));
    assert!(rt; refused(&rt, "run --op"));
    assert!(rt; refused(&rt, "run --op="));
    assert!(rt; refused(&rt, "run --op root --op root"));
    assert!(rt; refused(&rt, "run --op root --op=root"));
    assert!(rt; refused(&rt, "run --op root more"));
    assert!(rt; refused(&rt, "run root"));
    assert!(rt; refused(&rt, "run -op root"));
    assert!(rt; refused(&rt, "run --op --op"));
    assert!(rt; refused(&rt, "run --op -x"));
    assert!(rt; refused(&rt, "run --op Root"));
    assert!(rt; refused(&rt, "run --op root --key k1"));
    assert!(rt; refused(&rt, "--op root run"));
}

#[test]
fn words_of_serve_migrate_check_and_trial_outside_the_set(rt: HostRuntime) {
    assert!(rt; refused(&rt, "serve --op root --port 8080 --workers 2"));
    assert!(rt; refused(&rt, "serve --op root --port 0 --workers 2 --links 1"));
    assert!(rt; refused(&rt, "serve --op root --port 65536 --workers 2 --links 1"));
    assert!(rt; refused(&rt, "serve --op root --port 080 --workers 2 --links 1"));
    assert!(rt; refused(&rt, "serve --op root --port 8080 --workers 65 --links 1"));
    assert!(rt; refused(&rt, "serve --op root --port 8080 --workers 2 --links 0"));
    assert!(rt;
        refused(
            &rt,
            "serve --op root --port 8080 --workers 2 --links 1000001"
        )
    );
    assert!(rt; refused(&rt, "migrate spare"));
    assert!(rt; refused(&rt, "migrate --op root"));
    assert!(rt; refused(&rt, "check auction.journal"));
    assert!(rt; refused(&rt, "check --csv"));
    assert!(rt; refused(&rt, "trial 1"));
    assert!(rt; refused(&rt, "trial 1 0"));
    assert!(rt; refused(&rt, "trial 1 1000001"));
    assert!(rt; refused(&rt, "trial 18446744073709551616 1"));
    assert!(rt; refused(&rt, "trial 1 1 1"));
    assert!(rt; refused(&rt, "trial -1 1"));
}

#[test]
fn words_of_follow_outside_the_set(rt: HostRuntime) {
    assert!(rt; refused(&rt, "follow"));
    assert!(rt; refused(&rt, "follow send"));
    assert!(rt; refused(&rt, "follow take 0"));
    assert!(rt; refused(&rt, "follow send 00"));
    assert!(rt; refused(&rt, "follow send 18446744073709551616"));
    assert!(rt; refused(&rt, "follow send 0 0"));
    assert!(rt; refused(&rt, "follow 0 send"));
    assert!(rt; refused(&rt, "follow give 0"));
    assert!(rt; refused(&rt, "follow take --op root"));
}

#[test]
fn words_of_register_outside_the_set(rt: HostRuntime) {
    assert!(rt; refused(&rt, "register 912797AA5"));
    assert!(rt; refused(&rt, "register --cusip"));
    assert!(rt; refused(&rt, "register --cusip 912797AA"));
    assert!(rt; refused(&rt, "register --cusip 912797AA50"));
    assert!(rt; refused(&rt, "register --cusip 912797aa5"));
    assert!(rt; refused(&rt, "register --cusip 912797/A5"));
    assert!(rt; refused(&rt, "register --cusip 912797A@5"));
    assert!(rt; refused(&rt, "register --cusip 912797AA5 --cusip 912797AA5"));
    assert!(rt; refused(&rt, "register --op root"));
    assert!(rt; refused(&rt, "register --csv"));
}

#[test]
fn words_of_import_and_report_outside_the_set(rt: HostRuntime) {
    assert!(rt; refused(&rt, "import --op root --key op:"));
    assert!(rt; refused(&rt, "import --op root --key k1 --csv"));
    assert!(rt; refused(&rt, "import --op root --key k1 bids"));
    assert!(rt; refused(&rt, "report --op root --key k1"));
    assert!(rt; refused(&rt, "report terms --op root --key k1"));
    assert!(rt; refused(&rt, "report holdings bill13 --op root --key k1"));
    assert!(rt; refused(&rt, "report awards bill13 fund1 --op root --key k1"));
    assert!(rt; refused(&rt, "report results bill13 --op root --key k1 --csv"));
    assert!(rt; refused(&rt, "report redemption 912797AB3 --op root --key k1 --csv"));
    assert!(rt; refused(&rt, "report awards bill13 --op root --key k1 --csv --csv"));
    assert!(rt; refused(&rt, "report awards bill13 --op root --key k1 --csv=yes"));
    assert!(rt; refused(&rt, "report redemption 912797AB --op root --key k1"));
    assert!(rt; refused(&rt, "report auctions bill13 --op root --key k1"));
    // Funds are read by GET alone.
    assert!(rt; refused(&rt, "report funds --op root --key k1"));
}

#[test]
fn two_hyphens_alone_are_refused(rt: HostRuntime) {
    assert!(rt; reads_as(&rt, "award --", Err(WordsFault::Usage)));
    assert!(rt; reads_as(&rt, "award -- full", Err(WordsFault::Usage)));
    assert!(rt; reads_as(&rt, "run --op root --", Err(WordsFault::Usage)));
    assert!(rt; reads_as(&rt, "trial -- 1 1", Err(WordsFault::Usage)));
}
