//! Tests of the public calls: values that were calculated by hand.
use std::process::Abort;
use std::test::Fail;
use tb_units::*;

// the text is printed
fn shows(printed: Short, wanted: &str) -> bool {
    printed.bytes() == wanted.as_bytes()
}

// the text is read as a rate of so many steps, or refused so
fn rate(text: &str, wanted: Result<u32, RateFault>) -> bool {
    Rate::read(text).map(|rate| rate.steps) == wanted
}

#[test]
fn rates_have_steps_of_half_a_hundredth(rt: HostRuntime) {
    assert!(rt; rate("5.32", Ok(1064)));
    assert!(rt; rate("5.322", Err(RateFault::Step)));
    assert!(rt; rate("5.", Err(RateFault::Form)));
    assert!(rt; rate(".5", Err(RateFault::Form)));
    assert!(rt; rate("", Err(RateFault::Form)));
    assert!(rt; rate("1000", Err(RateFault::Form)));
}

#[test]
fn numbers_are_printed_with_all_their_decimals(rt: HostRuntime) {
    assert!(rt; shows(Rate { steps: 1066 }.print(), "5.330"));
    assert!(rt;
        shows(
            Price {
                millionths: 98_652_694,
            }
            .print(),
            "98.652694"
        )
    );
    assert!(rt; shows(Percent { hundredths: 5556 }.print(), "55.56"));
    assert!(rt; shows(Percent { hundredths: 10000 }.print(), "100.00"));
    assert!(rt; shows(Percent { hundredths: 1 }.print(), "0.01"));
    assert!(rt;
        shows(
            Dollars {
                value: 1_000_000_000_000,
            }
            .print(),
            "1000000000000"
        )
    );
    assert!(rt; shows(Cents { value: 0 }.print(), "0.00"));
    assert!(rt; shows(Cents { value: 5 }.print(), "0.05"));
    assert!(rt; shows(Cents { value: 989_206 }.print(), "9892.06"));
}

#[test]
fn texts_are_put_together(rt: HostRuntime) {
    let mut text = Short::new();
    text.push_last_digits(2024, 4);
    text.push(b'-');
    text.push_last_digits(2, 2);
    assert!(rt; shows(text, "2024-02"));
}

#[test]
fn years_have_their_days(rt: HostRuntime) {
    assert_eq!(rt; YearLength::Y365.days(), 365);
    assert_eq!(rt; YearLength::Y366.days(), 366);
}

// the text is a name, and the name has its bytes
fn is_name(text: &str) -> bool {
    Ident::read(text).is_some_and(|name| name.bytes() == text.as_bytes())
}

fn is_no_name(text: &str) -> bool {
    Ident::read(text).is_none() && Ident::of_bytes(text.as_bytes()).is_none()
}

#[test]
fn names_are_short_and_plain(rt: HostRuntime) {
    assert!(rt; is_name("a"));
    assert!(rt; is_name("n1"));
    assert!(rt; is_name("abcdefghijklmnopqrstuvwxyz012345"));
    assert!(rt; is_no_name("abcdefghijklmnopqrstuvwxyz0123456"));
    assert!(rt; is_no_name(""));
    assert!(rt; is_no_name("-a"));
    assert!(rt; is_no_name("_a"));
    assert!(rt; is_no_name("A"));
    assert!(rt; is_no_name(" "));
}

fn name(rt: &impl Abort, text: &str) -> Ident {
    Ident::of_bytes(text.as_bytes()).expect(rt, "no name")
}

fn before(rt: &impl Abort, one: &str, other: &str) -> bool {
    name(rt, one) < name(rt, other) && name(rt, one) != name(rt, other)
}

#[test]
fn names_are_in_order_of_their_bytes(rt: HostRuntime) {
    assert!(rt; before(&rt, "a", "b"));
    assert!(rt; before(&rt, "a", "a-"));
    assert!(rt; before(&rt, "a9", "b"));
    assert!(rt; before(&rt, "0", "a"));
    assert!(rt; before(&rt, "a-", "a0"));
    assert!(rt; before(&rt, "a0", "a_"));
    assert!(rt; before(&rt, "bidder-0", "bidder-00"));
    assert!(rt; before(&rt, "bidder-of-1", "bidder-of-2"));
    assert!(rt; before(&rt, "submitter-number-1", "submitter-number-2"));
    assert!(rt;
        before(
            &rt,
            "a-name-that-has-all-32-bytes---0",
            "a-name-that-has-all-32-bytes---1"
        )
    );
    assert!(rt; name(&rt, "a") == name(&rt, "a"));
}

fn moment(text: &str, seconds: Option<u64>) -> bool {
    Moment::read(text).map(|moment| moment.seconds) == seconds
}

#[test]
fn moments_are_read_from_2000_to_2099(rt: HostRuntime) {
    assert!(rt; moment("946702800", Some(946_702_800)));
    assert!(rt; moment("4102444799", Some(4_102_444_799)));
    assert!(rt; moment("946702799", None));
    assert!(rt; moment("4102444800", None));
    assert!(rt; moment("0946702800", None));
    assert!(rt; moment("1730737800 ", None));
}

#[test]
fn the_later_moment_is_taken(rt: HostRuntime) {
    let one = Moment {
        seconds: 1_730_737_799,
    };
    let other = Moment {
        seconds: 1_730_737_800,
    };
    assert_eq!(rt; one.later(other), other);
    assert_eq!(rt; other.later(one), other);
}

fn dollars(text: &str, wanted: Option<u128>) -> bool {
    Dollars::read(text).map(|amount| amount.value) == wanted
}

fn days(text: &str, wanted: Option<u32>) -> bool {
    Days::read(text).map(|days| days.count) == wanted
}

#[test]
fn amounts_and_days_are_plain_numbers(rt: HostRuntime) {
    assert!(rt; dollars("0", Some(0)));
    assert!(rt; dollars("1000000000000", Some(1_000_000_000_000)));
    assert!(rt; dollars("1000000000001", None));
    assert!(rt; dollars("01", None));
    assert!(rt; dollars("+1", None));
    assert!(rt; dollars("", None));
    assert!(rt; days("1", Some(1)));
    assert!(rt; days("366", Some(366)));
    assert!(rt; days("0", None));
    assert!(rt; days("367", None));
    assert!(rt; days("091", None));
    assert_eq!(rt; read_number("366"), Some(366));
}

#[test]
fn want_of_memory_is_printed(rt: HostRuntime) -> Result<(), Fail> {
    let printed = OutOfMemory.to_string(rt.alloc())?;
    assert_eq!(rt; printed.as_str(), "out of memory");
    Ok(())
}
