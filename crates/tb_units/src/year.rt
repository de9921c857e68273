//! Lengths of the year for investment rates.
ghost use Rattle.std.specs.Prelude.{◌≡◌};
ghost use Rattle.tb_units.specs.Years.{days_of_year};

/// The days of the year after an issue (31 CFR Part 356, Appendix B).
#[derive(Clone, Copy, Debug, PartialEq, Eq)]
pub enum YearLength {
    Y365,
    Y366,
}

impl YearLength {
    /// Its days.
    pub fn days(self) -> u32
        ensures { result ≡ days_of_year self }
    {
        match self {
            YearLength::Y365 => 365,
            YearLength::Y366 => 366,
        }
    }
}
