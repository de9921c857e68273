//! Tests of the public calls. The seconds come from another calendar's arithmetic, or from published announcements.
use std::process::Abort;
use tb_terms::{
    Announcement, Cusip, EasternDays, Field, Refusal, Terms, TermsFault, payment_date, print_day,
    print_minute, read_day, read_minute, year_length,
};
use tb_units::{Cents, Day, Dollars, Ident, Moment, Short, YearLength};

fn day(rt: &impl Abort, text: &str) -> Day {
    read_day(text).expect(rt, "no day")
}

fn shows(printed: Short, wanted: &str) -> bool {
    printed.bytes() == wanted.as_bytes()
}

// the days of the eastern calendar, for which there is memory
fn eastern_days<R: AllocGlobal + Abort>(rt: &R) -> EasternDays {
    EasternDays::new(rt.alloc()).expect(rt, "memory")
}

// the day begins at this second, which is of that day
fn starts(rt: &impl Abort, days: &EasternDays, text: &str, seconds: u64) -> bool {
    let day = day(rt, text);
    let moment = days.start_of(day);
    moment.seconds == seconds && days.date_of(moment) == day
}

// the second is of this day
fn is_of(rt: &impl Abort, days: &EasternDays, seconds: u64, text: &str) -> bool {
    assert!(rt; 946_702_800 <= seconds && seconds <= 4_102_444_799);
    days.date_of(Moment { seconds }) == day(rt, text)
}

fn closes(rt: &impl Abort, days: &EasternDays, date: &str, minute: &str, seconds: u64) -> bool {
    let minute = read_minute(minute).expect(rt, "no minute");
    let day = day(rt, date);
    assert!(rt; minute >= 480 && minute <= 1080 && day.number <= 40_176);
    days.closing(day, minute).seconds == seconds
}

#[test]
fn days_begin_by_the_rule_on_the_days_of_change(rt: HostRuntime) {
    let days = eastern_days(&rt);
    assert!(rt; starts(&rt, &days, "2000-01-01", 946_702_800));
    assert!(rt; starts(&rt, &days, "2007-03-11", 1_173_589_200));
    assert!(rt; starts(&rt, &days, "2007-03-12", 1_173_672_000));
    assert!(rt; starts(&rt, &days, "2007-11-04", 1_194_148_800));
    assert!(rt; starts(&rt, &days, "2007-11-05", 1_194_238_800));
    assert!(rt; starts(&rt, &days, "2024-03-10", 1_710_046_800));
    assert!(rt; starts(&rt, &days, "2024-03-11", 1_710_129_600));
    assert!(rt; starts(&rt, &days, "2024-11-03", 1_730_606_400));
    assert!(rt; starts(&rt, &days, "2024-11-04", 1_730_696_400));
    assert!(rt; starts(&rt, &days, "2024-11-07", 1_730_955_600));
    assert!(rt; starts(&rt, &days, "2025-02-18", 1_739_854_800));
    assert!(rt; starts(&rt, &days, "2099-03-08", 4_076_629_200));
    assert!(rt; starts(&rt, &days, "2099-03-09", 4_076_712_000));
    assert!(rt; starts(&rt, &days, "2099-11-01", 4_097_188_800));
    assert!(rt; starts(&rt, &days, "2099-11-02", 4_097_278_800));
}

// The first seconds of the days up to a day, added up plainly and by their places.
fn table_sums(days: &EasternDays, last: Day) -> (u64, u64) {
    let mut plain = 0u64;
    let mut placed = 0u64;
    for number in 10_957..last.number + 1 {
        let seconds = days.start_of(Day { number }).seconds;
        plain = plain.wrapping_add(seconds);
        placed = placed.wrapping_add(seconds.wrapping_mul(number as u64 - 10_956));
    }
    (plain, placed)
}

// The sums up to the day are these.
fn sums(rt: &impl Abort, days: &EasternDays, last: &str, plain: u64, placed: u64) -> bool {
    table_sums(days, day(rt, last)) == (plain, placed)
}

#[test]
fn every_day_begins_where_another_calendar_has_it(rt: HostRuntime) {
    let days = eastern_days(&rt);
    assert!(rt;
        sums(
            &rt,
            &days,
            "2024-12-31",
            12_247_469_964_000,
            61_411_222_366_282_800
        )
    );
    assert!(rt;
        sums(
            &rt,
            &days,
            "2049-12-31",
            31_697_607_135_600,
            333_320_551_026_825_600
        )
    );
    assert!(rt;
        sums(
            &rt,
            &days,
            "2074-12-31",
            58_351_358_217_600,
            947_280_384_154_058_400
        )
    );
    assert!(rt;
        sums(
            &rt,
            &days,
            "2099-12-31",
            92_208_723_210_000,
            2_034_843_118_985_703_600
        )
    );
}

#[test]
fn a_second_before_a_day_is_the_day_before(rt: HostRuntime) {
    let days = eastern_days(&rt);
    assert!(rt; is_of(&rt, &days, 946_702_800, "2000-01-01"));
    assert!(rt; is_of(&rt, &days, 1_710_129_599, "2024-03-10"));
    assert!(rt; is_of(&rt, &days, 1_730_696_399, "2024-11-03"));
    assert!(rt; is_of(&rt, &days, 1_730_955_599, "2024-11-06"));
    assert!(rt; is_of(&rt, &days, 4_102_444_799, "2099-12-31"));
}

#[test]
fn closings_are_in_the_time_of_the_day(rt: HostRuntime) {
    let days = eastern_days(&rt);
    assert!(rt; closes(&rt, &days, "2024-11-04", "11:30", 1_730_737_800));
    assert!(rt; closes(&rt, &days, "2024-11-04", "11:00", 1_730_736_000));
    assert!(rt; closes(&rt, &days, "2007-03-11", "08:00", 1_173_614_400));
    assert!(rt; closes(&rt, &days, "2007-11-04", "18:00", 1_194_217_200));
    assert!(rt; closes(&rt, &days, "2024-03-10", "08:00", 1_710_072_000));
    assert!(rt; closes(&rt, &days, "2024-11-03", "08:00", 1_730_638_800));
}

// the text spells no day
fn no_day(text: &str) -> bool {
    read_day(text).is_none()
}

// the text spells this minute
fn reads_minute(text: &str, minute: u16) -> bool {
    read_minute(text) == Some(minute)
}

// the text spells no minute
fn no_minute(text: &str) -> bool {
    read_minute(text).is_none()
}

// days are spelled so, and not otherwise
fn days_have_one_spelling(rt: &impl Abort) {
    assert!(rt; shows(print_day(day(rt, "2024-02-29")), "2024-02-29"));
    assert!(rt; shows(print_day(Day { number: 10_957 }), "2000-01-01"));
    assert!(rt; shows(print_day(Day { number: 47_481 }), "2099-12-31"));
    assert!(rt; no_day("2023-02-29"));
    assert!(rt; no_day("2024-02-30"));
    assert!(rt; no_day("2024-13-01"));
    assert!(rt; no_day("2024-00-01"));
    assert!(rt; no_day("1999-12-31"));
    assert!(rt; no_day("2100-01-01"));
    assert!(rt; no_day("2024-2-29"));
    assert!(rt; no_day("2024/02/29"));
    assert!(rt; no_day(" 2024-02-29"));
    assert!(rt; no_day(""));
}

// minutes are spelled so, and not otherwise
fn minutes_have_one_spelling(rt: &impl Abort) {
    assert!(rt; shows(print_minute(690), "11:30"));
    assert!(rt; shows(print_minute(0), "00:00"));
    assert!(rt; reads_minute("11:30", 690));
    assert!(rt; reads_minute("23:59", 1439));
    assert!(rt; no_minute("24:00"));
    assert!(rt; no_minute("11:60"));
    assert!(rt; no_minute("1:30"));
    assert!(rt; no_minute("11.30"));
    assert!(rt; no_minute("11:3o"));
    assert!(rt; no_minute(""));
}

#[test]
fn days_and_minutes_have_one_spelling(rt: HostRuntime) {
    days_have_one_spelling(&rt);
    minutes_have_one_spelling(&rt);
}

fn year(rt: &impl Abort, issue: &str, length: YearLength) -> bool {
    year_length(day(rt, issue)) == length
}

#[test]
fn years_have_366_days_before_a_29_february(rt: HostRuntime) {
    assert!(rt; year(&rt, "2023-02-28", YearLength::Y365));
    assert!(rt; year(&rt, "2023-03-01", YearLength::Y366));
    assert!(rt; year(&rt, "2024-02-28", YearLength::Y366));
    assert!(rt; year(&rt, "2024-02-29", YearLength::Y365));
    assert!(rt; year(&rt, "2099-12-31", YearLength::Y365));
}

// the day has this spelling
fn is_day(rt: &impl Abort, found: Day, text: &str) -> bool {
    found == day(rt, text)
}

#[test]
fn payment_steps_over_weekends_and_holidays(rt: HostRuntime) {
    let maturity = Day { number: 20_134 };
    assert!(rt; is_day(&rt, maturity, "2025-02-15"));
    let holidays = [Day { number: 20_108 }, Day { number: 20_136 }];
    assert!(rt; is_day(&rt, holidays[1], "2025-02-17"));
    assert!(rt; is_day(&rt, payment_date(maturity, &holidays), "2025-02-18"));
    assert!(rt; is_day(&rt, payment_date(maturity, &[]), "2025-02-17"));
}

fn announced(rt: &impl Abort) -> Announcement {
    Announcement {
        auction: Ident::read("bill13").expect(rt, "no name"),
        cusip: Cusip {
            bytes: *b"912797AA5",
        },
        offering: Dollars {
            value: 76_000_000_000,
        },
        minimum: Dollars { value: 100 },
        nc_ceiling: Dollars { value: 10_000_000 },
        competitive_floor: Dollars {
            value: 1_000_000_000,
        },
        nlp_threshold: Dollars {
            value: 26_600_000_000,
        },
        auction_date: day(rt, "2024-11-04"),
        nc_close: 660,
        c_close: 690,
        issue: day(rt, "2024-11-07"),
        maturity: day(rt, "2025-02-06"),
    }
}

#[test]
fn announcements_are_dated(rt: HostRuntime) {
    let announcement = announced(&rt);
    let terms = Terms::check(&announcement, &eastern_days(&rt)).expect(&rt, "not in order");
    assert!(rt; terms.announcement == announcement);
    assert!(rt; terms.days.count == 91);
    assert!(rt; terms.nc_moment.seconds == 1_730_736_000);
    assert!(rt; terms.c_moment.seconds == 1_730_737_800);
    assert!(rt; terms.issue_moment.seconds == 1_730_955_600);
    assert!(rt; terms.maturity_moment.seconds == 1_738_818_000);
}

// the announcement has this fault, or none
fn fault(announcement: &Announcement, days: &EasternDays, wanted: Option<TermsFault>) -> bool {
    Terms::check(announcement, days).err() == wanted
}

#[test]
fn faults_are_told_in_their_order(rt: HostRuntime) {
    let days = eastern_days(&rt);
    let mut announcement = announced(&rt);
    announcement.nc_close = 690;
    announcement.c_close = 660;
    assert!(rt; fault(&announcement, &days, Some(TermsFault::BadClosing)));
    announcement.offering = Dollars { value: 1_000_100 };
    assert!(rt; fault(&announcement, &days, Some(TermsFault::BadAmounts)));
    announcement.maturity = announcement.issue;
    assert!(rt; fault(&announcement, &days, Some(TermsFault::BadDates)));
    announcement.cusip = Cusip {
        bytes: *b"912797AA4",
    };
    assert!(rt; fault(&announcement, &days, Some(TermsFault::BadCusip)));
    announcement.cusip = Cusip {
        bytes: *b"912797aa5",
    };
    assert!(rt; fault(&announcement, &days, Some(TermsFault::BadCusip)));
    announcement.cusip = Cusip {
        bytes: *b"912797AB3",
    };
    assert!(rt; fault(&announcement, &days, Some(TermsFault::BadDates)));
}

// an announcement with these closings
fn closing(
    rt: &impl Abort,
    days: &EasternDays,
    noncompetitive: &str,
    competitive: &str,
    wanted: Option<TermsFault>,
) -> bool {
    let mut announcement = announced(rt);
    announcement.nc_close = read_minute(noncompetitive).expect(rt, "no minute");
    announcement.c_close = read_minute(competitive).expect(rt, "no minute");
    fault(&announcement, days, wanted)
}

#[test]
fn closings_are_from_8_to_18(rt: HostRuntime) {
    let days = eastern_days(&rt);
    assert!(rt; closing(&rt, &days, "08:00", "18:00", None));
    assert!(rt; closing(&rt, &days, "18:00", "18:00", None));
    assert!(rt; closing(&rt, &days, "07:59", "18:00", Some(TermsFault::BadClosing)));
    assert!(rt; closing(&rt, &days, "08:00", "18:01", Some(TermsFault::BadClosing)));
}

// an announcement with these dates
fn dated(
    rt: &impl Abort,
    days: &EasternDays,
    issue: &str,
    maturity: &str,
    wanted: Option<TermsFault>,
) -> bool {
    let mut announcement = announced(rt);
    announcement.issue = day(rt, issue);
    announcement.maturity = day(rt, maturity);
    fault(&announcement, days, wanted)
}

#[test]
fn bills_have_at_most_366_days_and_end_by_2079(rt: HostRuntime) {
    let days = eastern_days(&rt);
    assert!(rt; dated(&rt, &days, "2024-11-07", "2024-11-08", None));
    assert!(rt; dated(&rt, &days, "2024-11-07", "2025-11-08", None));
    assert!(rt;
        dated(
            &rt,
            &days,
            "2024-11-07",
            "2025-11-09",
            Some(TermsFault::BadDates)
        )
    );
    assert!(rt;
        dated(
            &rt,
            &days,
            "2024-11-07",
            "2024-11-07",
            Some(TermsFault::BadDates)
        )
    );
    assert!(rt;
        dated(
            &rt,
            &days,
            "2024-11-03",
            "2025-02-06",
            Some(TermsFault::BadDates)
        )
    );
    assert!(rt; dated(&rt, &days, "2079-06-01", "2079-12-31", None));
    assert!(rt;
        dated(
            &rt,
            &days,
            "2079-06-01",
            "2080-01-01",
            Some(TermsFault::BadDates)
        )
    );
}

// the refusal has this number and this name
fn told(refusal: Refusal, number: u8, name: &str) -> bool {
    refusal.number() == number && refusal.name() == name.as_bytes()
}

#[test]
fn refusals_of_requests_and_bids_have_their_numbers(rt: HostRuntime) {
    assert!(rt; told(Refusal::UnknownKey, 1, "UnknownKey"));
    assert!(rt; told(Refusal::NotPermitted, 2, "NotPermitted"));
    assert!(rt; told(Refusal::NumberReused, 3, "NumberReused"));
    assert!(rt; told(Refusal::MessageQuota, 4, "MessageQuota"));
    assert!(rt; told(Refusal::BadJson, 5, "BadJson"));
    assert!(rt; told(Refusal::NoRoute, 7, "NoRoute"));
    assert!(rt; told(Refusal::BadMethod, 8, "BadMethod"));
    assert!(rt; told(Refusal::UnknownAuction, 10, "UnknownAuction"));
    assert!(rt; told(Refusal::UnknownBidder, 11, "UnknownBidder"));
    assert!(rt; told(Refusal::BelowMinimum, 12, "BelowMinimum"));
    assert!(rt; told(Refusal::NotMultiple, 13, "NotMultiple"));
    assert!(rt; told(Refusal::RateTooHigh, 16, "RateTooHigh"));
    assert!(rt; told(Refusal::NoncompetitiveCeiling, 18, "NoncompetitiveCeiling"));
    assert!(rt; told(Refusal::MixedBids, 19, "MixedBids"));
    assert!(rt; told(Refusal::PositionRequired, 20, "PositionRequired"));
    assert!(rt; told(Refusal::BidQuota, 21, "BidQuota"));
    assert!(rt; told(Refusal::UnknownBid, 30, "UnknownBid"));
    assert!(rt; told(Refusal::AlreadyCancelled, 31, "AlreadyCancelled"));
}

// the refusals of the operator's messages have these numbers and names
fn refusals_of_the_operator(rt: &impl Abort) {
    assert!(rt; told(Refusal::AuctionExists, 40, "AuctionExists"));
    assert!(rt; told(Refusal::BadCusip, 41, "BadCusip"));
    assert!(rt; told(Refusal::BadDates, 42, "BadDates"));
    assert!(rt; told(Refusal::BadAmounts, 43, "BadAmounts"));
    assert!(rt; told(Refusal::BadClosing, 44, "BadClosing"));
    assert!(rt; told(Refusal::Exists, 50, "Exists"));
    assert!(rt; told(Refusal::RosterFull, 51, "RosterFull"));
    assert!(rt; told(Refusal::OtherSubmitter, 52, "OtherSubmitter"));
    assert!(rt; told(Refusal::AlreadyPublished, 61, "AlreadyPublished"));
    assert!(rt; told(Refusal::NotPublished, 62, "NotPublished"));
    assert!(rt; told(Refusal::AlreadySettled, 64, "AlreadySettled"));
}

// the refusals of what is done with accounts have these numbers and names
fn refusals_of_accounts(rt: &impl Abort) {
    assert!(rt; told(Refusal::UnknownSecurity, 70, "UnknownSecurity"));
    assert!(rt; told(Refusal::UnknownParticipant, 71, "UnknownParticipant"));
    assert!(rt; told(Refusal::SelfTransfer, 76, "SelfTransfer"));
    assert!(rt; told(Refusal::Matured, 77, "Matured"));
    assert!(rt; told(Refusal::UnknownPledge, 78, "UnknownPledge"));
    assert!(rt; told(Refusal::NotPledgee, 79, "NotPledgee"));
    assert!(rt; told(Refusal::AlreadyRedeemed, 82, "AlreadyRedeemed"));
    assert!(rt; told(Refusal::PledgeQuota, 83, "PledgeQuota"));
    assert!(rt; told(Refusal::NotRedeemed, 84, "NotRedeemed"));
    assert!(rt; told(Refusal::UnknownOffer, 91, "UnknownOffer"));
    assert!(rt; told(Refusal::NotBuyer, 92, "NotBuyer"));
    assert!(rt; told(Refusal::OfferClosed, 93, "OfferClosed"));
    assert!(rt; told(Refusal::OfferUncovered, 94, "OfferUncovered"));
    assert!(rt; told(Refusal::OfferQuota, 95, "OfferQuota"));
}

#[test]
fn refusals_of_the_operator_and_of_accounts_have_their_numbers(rt: HostRuntime) {
    refusals_of_the_operator(&rt);
    refusals_of_accounts(&rt);
}

#[test]
fn refusals_that_carry_values_have_their_numbers(rt: HostRuntime) {
    let day = Day { number: 20_125 };
    let dollars = Dollars { value: 100 };
    let auction = Ident::read("bill13").expect(&rt, "no name");
    let moment = Moment {
        seconds: 1_730_737_800,
    };
    assert!(rt; told(Refusal::BadShape(Field::NcClose), 6, "BadShape"));
    assert!(rt;
        told(
            Refusal::Late {
                moment,
                closing: moment,
            },
            17,
            "Late"
        )
    );
    assert!(rt;
        told(
            Refusal::MaturityDiffers { maturity: day },
            45,
            "MaturityDiffers"
        )
    );
    assert!(rt; told(Refusal::AddOnExists, 46, "AddOnExists"));
    assert!(rt;
        told(
            Refusal::NotClosed {
                moment,
                closing: moment,
            },
            60,
            "NotClosed"
        )
    );
    assert!(rt; told(Refusal::NotIssueDate { issue: day }, 63, "NotIssueDate"));
    assert!(rt;
        told(
            Refusal::InsufficientFree { free: dollars },
            73,
            "InsufficientFree"
        )
    );
    assert!(rt; told(Refusal::Unsettled { auction }, 74, "Unsettled"));
    assert!(rt;
        told(
            Refusal::MoreThanPledged { left: dollars },
            80,
            "MoreThanPledged"
        )
    );
    assert!(rt; told(Refusal::NotDue { payment: day }, 81, "NotDue"));
    assert!(rt;
        told(
            Refusal::InsufficientFunds {
                balance: Cents { value: 70_300 }
            },
            90,
            "InsufficientFunds"
        )
    );
}

// the field is the member of this name
fn is_member(field: Field, name: &str) -> bool {
    field.member() == name
}

// the fields of all requests, of the roster and of holidays have these names
fn members_of_the_roster(rt: &impl Abort) {
    assert!(rt; is_member(Field::Body, "body"));
    assert!(rt; is_member(Field::Number, "number"));
    assert!(rt; is_member(Field::Kind, "kind"));
    assert!(rt; is_member(Field::Submitter, "submitter"));
    assert!(rt; is_member(Field::Key, "key"));
    assert!(rt; is_member(Field::Bidder, "bidder"));
    assert!(rt; is_member(Field::Day, "day"));
}

// the fields of announcements have these names
fn members_of_announcements(rt: &impl Abort) {
    assert!(rt; is_member(Field::Auction, "auction"));
    assert!(rt; is_member(Field::Cusip, "cusip"));
    assert!(rt; is_member(Field::Offering, "offering"));
    assert!(rt; is_member(Field::Minimum, "minimum"));
    assert!(rt; is_member(Field::Ceiling, "ceiling"));
    assert!(rt; is_member(Field::Floor, "floor"));
    assert!(rt; is_member(Field::Threshold, "threshold"));
    assert!(rt; is_member(Field::Date, "date"));
    assert!(rt; is_member(Field::NcClose, "nc_close"));
    assert!(rt; is_member(Field::CClose, "c_close"));
    assert!(rt; is_member(Field::Issue, "issue"));
    assert!(rt; is_member(Field::Maturity, "maturity"));
}

// the fields of bids and of accounts have these names
fn members_of_bids_and_accounts(rt: &impl Abort) {
    assert!(rt; is_member(Field::Rate, "rate"));
    assert!(rt; is_member(Field::Amount, "amount"));
    assert!(rt; is_member(Field::Bid, "bid"));
    assert!(rt; is_member(Field::Position, "position"));
    assert!(rt; is_member(Field::To, "to"));
    assert!(rt; is_member(Field::Holder, "holder"));
    assert!(rt; is_member(Field::Pledge, "pledge"));
    assert!(rt; is_member(Field::Participant, "participant"));
    assert!(rt; is_member(Field::Cents, "cents"));
    assert!(rt; is_member(Field::Seller, "seller"));
    assert!(rt; is_member(Field::Offer, "offer"));
}

#[test]
fn members_have_the_names_of_requests(rt: HostRuntime) {
    members_of_the_roster(&rt);
    members_of_announcements(&rt);
    members_of_bids_and_accounts(&rt);
}

#[test]
fn faults_are_refusals(rt: HostRuntime) {
    assert!(rt; TermsFault::BadCusip.refusal() == Refusal::BadCusip);
    assert!(rt; TermsFault::BadDates.refusal() == Refusal::BadDates);
    assert!(rt; TermsFault::BadAmounts.refusal() == Refusal::BadAmounts);
    assert!(rt; TermsFault::BadClosing.refusal() == Refusal::BadClosing);
}
