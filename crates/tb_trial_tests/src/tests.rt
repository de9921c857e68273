//! Tests of the public call, with figures of another program that reckons with exact fractions.
ghost use Rattle.std.specs.Prelude.{◌≤◌, ◌^◌};

use std::alloc::Global;
use std::process::Abort;
use std::test::Fail;
use tb_trial::trial;

// The steps of the stop-out rate, the hundredths of the percentage, the millionths of the price and the dollars
// awarded.
fn figures(
    rt: &impl Abort,
    alloc: Global,
    seed: u64,
    count: u64,
) -> Result<(u32, u32, u64, u128), Fail> {
    assert!(rt; 1 <= count && count <= 1_000_000);
    let figures = trial(alloc, seed, count)?;
    Ok((
        figures.cut.stop.steps,
        figures.cut.percent.hundredths,
        figures.cut.price.millionths,
        figures.competitive.value,
    ))
}

// Too few bids to reach what is sought, enough of them, many, and more than are put in order at once.
#[test]
fn figures_follow_from_seed_and_count(rt: HostRuntime) -> Result<(), Fail> {
    let alloc = rt.alloc();
    assert!(rt; figures(&rt, alloc, 1, 1)? == (1010, 10_000, 98_723_472, 27_200));
    assert!(rt; figures(&rt, alloc, 7, 100)? == (1100, 10_000, 98_609_722, 5_305_600));
    assert!(rt; figures(&rt, alloc, 7, 50_000)? == (1040, 8913, 98_685_556, 1_000_024_700));
    assert!(rt; figures(&rt, alloc, 7, 70_000)? == (1029, 47, 98_699_458, 1_000_032_400));
    Ok(())
}
