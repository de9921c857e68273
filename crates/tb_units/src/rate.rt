//! Discount rates in percent, in steps of 0.005 (31 CFR 356.12(c)(1)).
ghost use Rattle.std.specs.Prelude.{◌≡◌, ◌≢◌, ℕ, ◌*◌, ◌%◌, ◌≤◌, ◌↔◌, Some, None, Err, IfOk, IfSome, IsSomeAnd, ◌<◌, ◌^◌, length};
ghost use Rattle.tb_units.specs.Decimals.{rate_text};
ghost use Rattle.tb_units.specs.Rates.{thousandths_of, thousandths_of_decimals, short_numeral_of};

use crate::short::Short;

/// A discount rate in steps of 0.005 percent, from 0.000 to 999.995.
#[derive(Clone, Copy, Debug, PartialEq, Eq, PartialOrd, Ord)]
pub struct Rate {
    pub steps: u32,
    ghost in_range: { steps ≤ 199999 },
}

/// Why a text is no rate.
#[derive(Clone, Copy, Debug, PartialEq, Eq)]
pub enum RateFault {
    /// It isn't one to three digits, then optionally a point and one to three decimals.
    Form,
    /// Its third decimal is neither 0 nor 5.
    Step,
}

impl Rate {
    /// Reads a rate in percent. Missing decimals are zeros.
    pub fn read(text: &str) -> Result<Rate, RateFault>
        ensures read { IfOk result (λ rate. thousandths_of text.now ≡ Some (5 * rate.steps)) }
        ensures form { (result ≡ Err RateFault.Form) ↔ (thousandths_of text.now ≡ None) }
        ensures step { (result ≡ Err RateFault.Step)
            ↔ IsSomeAnd (thousandths_of text.now) (λ thousandths. thousandths % 5 ≢ 0) }
    {
        match thousandths(text) {
            None => Err(RateFault::Form),
            Some(thousandths) if thousandths % 5 != 0 => Err(RateFault::Step),
            Some(thousandths) => Ok(Rate {
                steps: thousandths / 5,
            }),
        }
    }

    /// Prints the rate in percent with three decimals.
    pub fn print(self) -> Short
        ensures { result ≡ rate_text self.steps }
    {
        Short::with_decimals(5 * self.steps as u128, 3, 1000)
    }
}

// The number that one to three digits write.
fn short_numeral(text: &str) -> Option<u32>
    ensures value { result ≡ short_numeral_of text.now }
    ensures digits { IfSome result (λ number. number < 10 ^ length text.now) }
    ensures small { IfSome result (λ number. number < 1000) }
{
    if text.is_empty() || text.len() > 3 || text.as_bytes()[0] == b'+' {
        return None;
    }
    text.parse::<u32>().ok()
}

// The thousandths that one to three decimals stand for.
fn decimals(text: &str) -> Option<u32>
    ensures value { result ≡ thousandths_of_decimals text.now }
    ensures small { IfSome result (λ number. number < 1000) }
{
    let number = short_numeral(text)?;
    match text.len() {
        1 => Some(100 * number),
        2 => Some(10 * number),
        _ => Some(number),
    }
}

// The thousandths of a percent that the text stands for.
fn thousandths(text: &str) -> Option<u32>
    ensures value { result ≡ thousandths_of text.now }
    ensures small { IfSome result (λ number. number < 1000000) }
{
    match text.split_once('.') {
        None => Some(1000 * short_numeral(text)?),
        Some((whole, parts)) => {
            let whole = short_numeral(whole)?;
            let parts = decimals(parts)?;
            Some(1000 * whole + parts)
        }
    }
}
