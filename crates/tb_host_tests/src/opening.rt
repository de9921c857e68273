//! The lines with which the scripts of the tests begin, and what comes of the ordinary auction.

/// The results of the ordinary auction.
pub const RESULTS: &str = "auction bill13
cusip 912797AA5
issue 2024-11-07
maturity 2025-02-06
days 91
offering 76000000000
noncompetitive 0
competitive 20000000000
addon 0
total 20000000000
high 4.270
allotted 100.00
median 4.270
low 4.270
price 98.920639
investment 4.377
bids at lower rates were accepted in full
";

/// A script that begins with the registration of a dealer, at a moment of the morning where none is given. What follows
/// begins with the end of that line.
macro_rules! registered {
    (at $moment:literal, $($rest:literal),*) => {
        concat!(
            $moment,
            r#" op:root {"number":1,"kind":"register","submitter":"dealer1","key":"k1"}"#,
            $($rest),*
        )
    };
    ($($rest:literal),*) => {
        $crate::opening::registered!(at "1730700000", $($rest),*)
    };
}

/// A script that begins with a dealer, a fund of its own, and the announcement of a bill of 91 days. What follows
/// begins with the end of the last line.
macro_rules! opened {
    (at $moment:literal, $rest:literal) => {
        $crate::opening::registered!(
            at $moment,
            "\n",
            $moment,
            r#" op:root {"number":2,"kind":"enrol","bidder":"fund1","submitter":"dealer1"}"#,
            "\n",
            $moment,
            r#" op:root {"number":3,"kind":"announce","auction":"bill13","cusip":"912797AA5","offering":76000000000,"#,
            r#""minimum":100,"ceiling":10000000,"floor":1000000000,"threshold":26600000000,"date":"2024-11-04","#,
            r#""nc_close":"11:00","c_close":"11:30","issue":"2024-11-07","maturity":"2025-02-06"}"#,
            $rest
        )
    };
    ($rest:literal) => {
        $crate::opening::opened!(at "1730700000", $rest)
    };
}

pub(crate) use opened;
pub(crate) use registered;
