//! Tests of the public calls: worked examples whose values were calculated by hand.
ghost use Rattle.std.specs.Prelude.{◌≡◌, ◌%◌, ◌<◌, ◌≤◌, ◌^◌, true, length, All};
ghost use Rattle.tb_price.specs.Prices.{HasPrice};
ghost use Rattle.tb_award.specs.Cuts.{most_recognised, total_of};

use std::alloc::Global;
use std::marker::Brand;
use std::process::Abort;
use std::sync::ledger::{Blank, Ledger};
use tb_award::*;
use tb_price::above_zero;
use tb_units::{Days, Dollars, Lines, OutOfMemory, Percent, Price, Rate, RateLine, Steps};

fn dollars(value: u128) -> Dollars
    requires { value ≤ 10 ^ 27 }
    ensures { result.value ≡ value }
{
    Dollars { value }
}

// The bid (steps, bidder, amount) of one of so many bidders. Stops the test where it is of no such bidder.
fn bid_of(rt: &impl Abort, bidders: usize, bid: (u32, u32, u128)) -> RateLine
    ensures { result.bidder < bidders }
{
    let (steps, bidder, amount) = bid;
    let known = (bidder as usize) < bidders;
    assert!(rt; known && steps < 200_000 && amount < 1_000_000_000_000);
    RateLine {
        rate: Rate { steps },
        bidder,
        amount: dollars(amount),
    }
}

// The bids (steps, bidder, amount) of so many bidders.
fn bids_of(
    rt: &impl Abort,
    alloc: Global,
    bidders: usize,
    table: &[(u32, u32, u128)],
) -> Vec<RateLine>
    ensures { All (λ line. line.bidder < bidders) result.items }
{
    let mut bids = Vec::new(alloc);
    for place in 0..table.len() {
        let line = bid_of(rt, bidders, table[place]);
        assert!(rt; bids.push(line).is_ok());
    }
    bids
}

// The same in order.
fn sorted_bids_of(
    rt: &impl Abort,
    alloc: Global,
    bidders: usize,
    table: &[(u32, u32, u128)],
) -> SortedLines
    ensures { All (λ line. line.bidder < bidders) result }
{
    let bids = bids_of(rt, alloc, bidders, table);
    SortedLines::new(bids)
}

// What is recognised of the bids (steps, bidder, amount), whose bidders have these positions.
fn recognised_of(
    rt: &impl Abort,
    alloc: Global,
    table: &[(u32, u32, u128)],
    positions: &[i64],
    offering: Dollars,
) -> Recognised
    requires { offering.value % 100 ≡ 0 }
{
    let bids = sorted_bids_of(rt, alloc, positions.len(), table);
    recognise_uncounted(alloc, &bids, positions, offering).expect(rt, "memory")
}

// The same in place of lines that were recognised before.
fn recognise_again(
    rt: &impl Abort,
    alloc: Global,
    recognised: &mut Recognised,
    table: &[(u32, u32, u128)],
    positions: &[i64],
) {
    let bids = sorted_bids_of(rt, alloc, positions.len(), table);
    assert!(rt;
        recognised
            .reserve(bids.lines(), positions.len() as u64)
            .is_ok()
    );
    recognise_into_uncounted(recognised, &bids, positions, dollars(1_000_000_000));
}

// The lines are these (steps, bidder, amount).
fn has_lines(recognised: &Recognised, table: &[(u32, u32, u128)]) -> bool {
    for place in 0..recognised.count() {
        let line = recognised.line(place);
        let told = (line.rate.steps, line.bidder, line.amount.value);
        if table.get(place as usize).copied() != Some(told) {
            return false;
        }
    }
    recognised.count() == table.len() as u64
}

#[test]
fn the_limit_is_applied_from_the_lowest_rate_up(rt: HostRuntime) {
    let recognised = recognised_of(
        &rt,
        rt.alloc(),
        &[
            (800, 0, 1_000_000_000),
            (801, 0, 1_000_000_000),
            (802, 0, 1_000_000_000),
            (802, 1, 3_500_000_000),
            (803, 2, 3_500_000_000),
            (804, 3, 3_500_000_000),
        ],
        &[1_000_000_000, 0, 0, 0],
        dollars(10_000_000_000),
    );
    assert!(rt;
        has_lines(
            &recognised,
            &[
                (800, 0, 1_000_000_000),
                (801, 0, 1_000_000_000),
                (802, 0, 500_000_000),
                (802, 1, 3_500_000_000),
                (803, 2, 3_500_000_000),
                (804, 3, 3_500_000_000),
            ]
        )
    );
}

#[test]
fn bids_at_one_rate_are_added_and_cut_to_the_cap(rt: HostRuntime) {
    let bids = [(800, 0, 200_000_000), (800, 0, 250_000_000)];
    let recognised = recognised_of(&rt, rt.alloc(), &bids, &[0], dollars(1_000_000_000));
    assert!(rt; has_lines(&recognised, &[(800, 0, 350_000_000)]));
}

#[test]
fn positions_lower_the_limit(rt: HostRuntime) {
    // Above the cap, negative, one that isn't in hundreds, none.
    let positions = [350_000_100, -50_000_000, 50, 0];
    let recognised = recognised_of(
        &rt,
        rt.alloc(),
        &[
            (804, 3, 200_000_000),
            (800, 0, 100),
            (801, 2, 100),
            (800, 2, 400_000_000),
            (800, 1, 400_000_000),
            (802, 3, 200_000_000),
            (803, 3, 200_000_000),
        ],
        &positions,
        dollars(1_000_000_000),
    );
    assert!(rt;
        has_lines(
            &recognised,
            &[
                (800, 1, 350_000_000),
                (800, 2, 349_999_900),
                (802, 3, 200_000_000),
                (803, 3, 150_000_000),
            ]
        )
    );
}

#[test]
fn limits_are_in_hundreds(rt: HostRuntime) {
    let offering = dollars(1_000_000_000);
    assert!(rt; cap(offering).value == 350_000_000);
    assert!(rt; limit(offering, 0).value == 350_000_000);
    assert!(rt; limit(offering, 50).value == 349_999_900);
    assert!(rt; limit(offering, 100).value == 349_999_900);
    assert!(rt; limit(offering, -100).value == 350_000_000);
    assert!(rt; limit(offering, 349_999_900).value == 100);
    assert!(rt; limit(offering, 349_999_901).value == 0);
    assert!(rt; limit(offering, 400_000_000).value == 0);
}

// So much is sought of 1,000,000,000.
fn seeks(noncompetitive: Dollars, floor: Dollars, wanted: u128) -> bool {
    sought(dollars(1_000_000_000), noncompetitive, floor).value == wanted
}

#[test]
fn the_amount_sought_has_a_floor(rt: HostRuntime) {
    assert!(rt; seeks(dollars(100_000_000), dollars(1_000_000), 900_000_000));
    assert!(rt; seeks(dollars(900_000_000), dollars(100_000_000), 100_000_000));
    assert!(rt; seeks(dollars(950_000_000), dollars(100_000_000), 100_000_000));
    assert!(rt; seeks(dollars(1_200_000_000), dollars(100_000_000), 100_000_000));
}

#[test]
fn new_lines_take_the_place_of_old_ones(rt: HostRuntime) {
    let alloc = rt.alloc();
    let old = [(800, 0, 350_000_000), (801, 1, 100_000_000)];
    let mut recognised = recognised_of(&rt, alloc, &old, &[0, 0], dollars(1_000_000_000));
    assert!(rt; has_lines(&recognised, &old));
    let new = [(900, 0, 300_000_000)];
    recognise_again(&rt, alloc, &mut recognised, &new, &[0]);
    assert!(rt; has_lines(&recognised, &new));
    recognise_again(&rt, alloc, &mut recognised, &[], &[]);
    assert!(rt; has_lines(&recognised, &[]));
}

// Memory for so much isn't there.
fn wants_memory(recognised: &mut Recognised, lines: u64, bidders: u64) -> bool {
    recognised.reserve(lines, bidders) == Err(OutOfMemory)
}

#[test]
fn want_of_memory_leaves_the_lines(rt: HostRuntime) {
    let bids = [(800, 0, 100_000_000)];
    let mut recognised = recognised_of(&rt, rt.alloc(), &bids, &[0], dollars(1_000_000_000));
    assert!(rt; wants_memory(&mut recognised, u64::MAX, 0));
    assert!(rt; has_lines(&recognised, &bids));
    assert!(rt; wants_memory(&mut recognised, 0, u64::MAX));
    assert!(rt; has_lines(&recognised, &bids));
}

// What is recognised of the bids, with the steps counted in a ledger.
fn recognised_by<L: Ledger>(
    rt: &impl Abort,
    alloc: Global,
    blank: Blank,
    bids: &SortedLines,
) -> Recognised
    requires name { blank.name ≡ L.name }
    requires parts { blank.parts ≡ L.parts }
    requires some { 0 < L.parts }
    requires known { All (λ line. line.bidder < 1) bids.now }
{
    let mut steps = Steps::<L>::new(blank);
    recognise(alloc, bids, &[0], dollars(1_000_000_000), &mut steps).expect(rt, "memory")
}

fn recognised_of_one(rt: &impl Abort, alloc: Global, bids: &SortedLines) -> Recognised
    requires { All (λ line. line.bidder < 1) bids.now }
{
    recognised_by::<Brand>(rt, alloc, Blank::new(1), bids)
}

#[test]
fn counted_steps_recognise_the_same(rt: HostRuntime) {
    let table = [(800, 0, 200_000_000), (801, 0, 250_000_000)];
    let bids = sorted_bids_of(&rt, rt.alloc(), 1, &table);
    let recognised = recognised_of_one(&rt, rt.alloc(), &bids);
    assert!(rt; has_lines(&recognised, &[(800, 0, 200_000_000), (801, 0, 150_000_000)]));
}

// The lines have prices for the days of the bill, and their amounts add up to at most 10^22.
fn may_be_cut(recognised: &Recognised, days: Days) -> bool
    ensures priced { result ≡ true → All (λ line. HasPrice line.rate.steps days.count) recognised.now.lines }
    ensures fits { result ≡ true → total_of recognised.now.lines ≤ most_recognised }
{
    let mut total = 0;
    for place in 0..recognised.count() {
        let line = recognised.line(place);
        total += line.amount.value;
        if !above_zero(line.rate, days) || total > 10_000_000_000_000_000_000_000 {
            return false;
        }
    }
    true
}

// The cut, the sum of the awards, the median and the low rate of an auction of so much of a bill of 91 days. Stops the
// test where the cut may not be asked for.
fn figures(
    rt: &impl Abort,
    recognised: &Recognised,
    sought: u128,
) -> Option<(Cut, u128, u32, u32)> {
    let days = Days { count: 91 };
    let may = may_be_cut(recognised, days);
    assert!(rt; may && 100 <= sought && sought <= 1_000_000_000_000);
    match cut(recognised, dollars(sought), days) {
        Outcome::Cut(cut) => Some((
            cut,
            awarded(&cut, recognised).value,
            median_rate(&cut, recognised).steps,
            low_rate(&cut, recognised).steps,
        )),
        Outcome::NoAwards => None,
    }
}

// The cut has these figures.
fn is_cut(cut: &Cut, steps: u32, hundredths: u32, millionths: u64, sought: u128) -> bool {
    cut.stop.steps == steps
        && cut.percent.hundredths == hundredths
        && cut.price.millionths == millionths
        && cut.sought.value == sought
}

// So much is recognised below the stop and at it.
fn recognises(cut: &Cut, below: u128, at_stop: u128) -> bool {
    cut.below.value == below && cut.at_stop.value == at_stop
}

// So much is awarded of so many dollars at a rate of so many steps.
fn awards(rt: &impl Abort, cut: &Cut, steps: u32, amount: u32, wanted: u32) -> bool {
    assert!(rt; steps < 200_000);
    award(cut, Rate { steps }, dollars(u128::from(amount))).value == u128::from(wanted)
}

#[test]
fn the_stop_is_where_the_amount_sought_is_reached(rt: HostRuntime) {
    let recognised = recognised_of(
        &rt,
        rt.alloc(),
        &[
            (1064, 0, 300_000_000),
            (1065, 1, 350_000_000),
            (1066, 2, 400_000_000),
            (1066, 3, 100_000_000),
        ],
        &[0, 0, 0, 0],
        dollars(1_000_000_000),
    );
    let (cut, sum, median, low) = figures(&rt, &recognised, 900_000_000).expect(&rt, "no cut");
    assert!(rt; is_cut(&cut, 1066, 5556, 98_652_694, 900_000_000));
    assert!(rt; recognises(&cut, 650_000_000, 450_000_000));
    assert!(rt; awards(&rt, &cut, 1065, 350_000_000, 350_000_000));
    assert!(rt; awards(&rt, &cut, 1066, 350_000_000, 194_460_000));
    assert!(rt; awards(&rt, &cut, 1066, 100_000_000, 55_560_000));
    assert!(rt; awards(&rt, &cut, 1067, 100_000_000, 0));
    assert!(rt; sum == 900_020_000);
    assert!(rt; median == 1065 && low == 1064);
}

#[test]
fn the_percentage_is_the_least_that_reaches_the_amount_sought(rt: HostRuntime) {
    let recognised = recognised_of(
        &rt,
        rt.alloc(),
        &[
            (1000, 0, 105_000_000),
            (1000, 1, 105_000_000),
            (1002, 2, 90_000_000),
            (1002, 3, 90_000_000),
            (1002, 4, 90_000_000),
        ],
        &[0, 0, 0, 0, 0],
        dollars(300_000_000),
    );
    let (cut, sum, median, low) = figures(&rt, &recognised, 300_000_000).expect(&rt, "no cut");
    assert!(rt; is_cut(&cut, 1002, 3334, 98_733_583, 300_000_000));
    assert!(rt; recognises(&cut, 210_000_000, 270_000_000));
    assert!(rt; awards(&rt, &cut, 1000, 105_000_000, 105_000_000));
    assert!(rt; awards(&rt, &cut, 1002, 90_000_000, 30_006_000));
    assert!(rt; sum == 300_018_000);
    assert!(rt; median == 1000 && low == 1000);
}

#[test]
fn a_short_auction_stops_at_its_greatest_rate_and_is_awarded_whole(rt: HostRuntime) {
    let recognised = recognised_of(
        &rt,
        rt.alloc(),
        &[(800, 0, 100_000_000), (900, 1, 200_000_000)],
        &[0, 0],
        dollars(1_000_000_000),
    );
    let (cut, sum, median, low) = figures(&rt, &recognised, 900_000_000).expect(&rt, "no cut");
    assert!(rt; is_cut(&cut, 900, 10_000, 98_862_500, 900_000_000));
    assert!(rt; recognises(&cut, 100_000_000, 200_000_000));
    assert!(rt; awards(&rt, &cut, 800, 100_000_000, 100_000_000));
    assert!(rt; awards(&rt, &cut, 900, 200_000_000, 200_000_000));
    assert!(rt; sum == 300_000_000);
    assert!(rt; median == 900 && low == 800);
}

// An auction where so much is bid at the steps 700, 800 and 900, all of it awarded, has this median and this low rate.
fn has_rates(
    rt: &impl Abort,
    alloc: Global,
    amounts: [u128; 3],
    median: u32,
    low_rate: u32,
) -> bool {
    let [low, middle, high] = amounts;
    let bids = [(700, 0, low), (800, 1, middle), (900, 2, high)];
    let recognised = recognised_of(rt, alloc, &bids, &[0, 0, 0], dollars(1_000_000_000));
    match figures(rt, &recognised, 900_000_000) {
        Some(found) => found.1 == 300_000_000 && found.2 == median && found.3 == low_rate,
        None => false,
    }
}

#[test]
fn a_half_and_a_twentieth_of_the_awards_are_enough(rt: HostRuntime) {
    // Exactly so much at or below the rate, and 100 dollars less.
    let exact = [15_000_000, 135_000_000, 150_000_000];
    assert!(rt; has_rates(&rt, rt.alloc(), exact, 800, 700));
    let less = [14_999_900, 135_000_000, 150_000_100];
    assert!(rt; has_rates(&rt, rt.alloc(), less, 900, 800));
}

#[test]
fn nobody_gets_an_award_where_nothing_is_recognised(rt: HostRuntime) {
    let recognised = Recognised::empty(rt.alloc());
    assert!(&rt; figures(&rt, &recognised, 900_000_000).is_none());
}

// A bid of so many dollars gets so much at the stop-out rate, all below it and nothing above it, at this percentage.
fn at_the_stop(rt: &impl Abort, percent: Percent, amount: u32, wanted: u32) -> bool {
    let cut = Cut {
        stop: Rate { steps: 1000 },
        percent,
        price: Price {
            millionths: 98_652_694,
        },
        below: dollars(0),
        at_stop: dollars(18_000),
        sought: dollars(18_000),
    };
    awards(rt, &cut, 999, amount, amount)
        && awards(rt, &cut, 1000, amount, wanted)
        && awards(rt, &cut, 1001, amount, 0)
}

#[test]
fn awards_at_the_stop_are_raised_to_the_next_hundred(rt: HostRuntime) {
    assert!(rt; at_the_stop(&rt, Percent { hundredths: 8827 }, 18_000, 15_900));
    assert!(rt; at_the_stop(&rt, Percent { hundredths: 1 }, 100, 100));
    assert!(rt; at_the_stop(&rt, Percent { hundredths: 10_000 }, 18_000, 18_000));
}
