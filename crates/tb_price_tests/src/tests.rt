//! Tests of prices, payments and investment rates: published results, and both ends.
use std::process::Abort;
use tb_price::{Investment, above_zero, investment, payment, price};
use tb_units::{Days, Dollars, Price, Rate, YearLength};

fn costs(rt: &impl Abort, rate: Rate, days: Days, wanted: Price) -> bool {
    assert!(rt; above_zero(rate, days));
    price(rate, days) == wanted
}

#[test]
fn prices_agree_with_published_results(rt: HostRuntime) {
    assert!(rt;
        costs(
            &rt,
            Rate { steps: 1522 },
            Days { count: 90 },
            Price {
                millionths: 98_097_500,
            },
        )
    );
    assert!(rt;
        costs(
            &rt,
            Rate { steps: 0 },
            Days { count: 91 },
            Price {
                millionths: 100_000_000,
            },
        )
    );
    assert!(rt;
        costs(
            &rt,
            Rate { steps: 854 },
            Days { count: 91 },
            Price {
                millionths: 98_920_639,
            },
        )
    );
    assert!(rt;
        costs(
            &rt,
            Rate { steps: 1066 },
            Days { count: 91 },
            Price {
                millionths: 98_652_694,
            },
        )
    );
}

#[test]
fn prices_end_above_zero(rt: HostRuntime) {
    assert!(rt; above_zero(Rate { steps: 79_120 }, Days { count: 91 }));
    assert!(rt; !above_zero(Rate { steps: 79_121 }, Days { count: 91 }));
}

// So many cents are paid for a par at a price.
fn pays(par: u64, price: Price, cents: u128) -> bool {
    let par = Dollars { value: par as u128 };
    payment(par, price).value == cents
}

#[test]
fn payments_are_to_the_cent(rt: HostRuntime) {
    assert!(rt;
        pays(
            10_000,
            Price {
                millionths: 98_920_639
            },
            989_206
        )
    );
    assert!(rt;
        pays(
            100,
            Price {
                millionths: 98_925_000
            },
            9_893
        )
    );
    assert!(rt;
        pays(
            300_000_000,
            Price {
                millionths: 98_652_694
            },
            29_595_808_200
        )
    );
    assert!(rt;
        pays(
            83_340_000,
            Price {
                millionths: 98_652_694
            },
            8_221_715_518
        )
    );
    assert!(rt;
        pays(
            0,
            Price {
                millionths: 98_652_694
            },
            0
        )
    );
}

// A price for so many days earns so many thousandths of a percent a year.
fn earns(price: Price, days: Days, year: YearLength, thousandths: u128) -> bool {
    investment(price, days, year).thousandths == thousandths
}

#[test]
fn investment_rates_agree_with_published_results(rt: HostRuntime) {
    assert!(rt;
        earns(
            Price {
                millionths: 98_920_639
            },
            Days { count: 91 },
            YearLength::Y365,
            4_377
        )
    );
    assert!(rt;
        earns(
            Price {
                millionths: 99_559_444
            },
            Days { count: 20 },
            YearLength::Y365,
            8_076
        )
    );
    assert!(rt;
        earns(
            Price {
                millionths: 92_265_000
            },
            Days { count: 364 },
            YearLength::Y365,
            8_237
        )
    );
    assert!(rt;
        earns(
            Price {
                millionths: 100_000_000
            },
            Days { count: 91 },
            YearLength::Y365,
            0
        )
    );
    assert!(rt;
        earns(
            Price {
                millionths: 100_000_000
            },
            Days { count: 366 },
            YearLength::Y366,
            0
        )
    );
    assert!(rt;
        earns(
            Price { millionths: 1 },
            Days { count: 1 },
            YearLength::Y366,
            3_659_999_963_400_000
        )
    );
    assert!(rt;
        earns(
            Price { millionths: 1 },
            Days { count: 183 },
            YearLength::Y365,
            38_173_363_687
        )
    );
    let printed = Investment { thousandths: 4_377 }.print();
    assert_eq!(rt; printed.bytes(), "4.377".as_bytes());
}
