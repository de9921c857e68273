//! CUSIPs, by which bills are named.
ghost use Rattle.std.specs.Prelude.{◌≡◌, ◌*◌, ◌+◌, ◌<◌, ◌≤◌};
ghost use Rattle.std.specs.List.{list_all};
ghost use Rattle.tb_terms.specs.Cusips.{is_cusip, check_sum, pair_sum};
ghost use Rattle.tb_terms.specs.Cusips as standard;

/// Nine bytes that name a bill, if they are one. Their order is that of the bytes.
#[derive(Clone, Copy, Debug, PartialEq, Eq, PartialOrd, Ord, Hash)]
pub struct Cusip {
    pub bytes: [u8; 9],
}

impl Cusip {
    /// Whether it is nine digits and capital letters, the ninth of them the check digit.
    pub fn has_check_digit(&self) -> bool
        ensures { result ≡ is_cusip self.now.bytes }
    {
        let digit = (10 - self.check_sum() % 10) % 10;
        are_cusip_bytes(&self.bytes) && value_of(self.bytes[8]) == digit
    }

    fn check_sum(&self) -> u32
        ensures { result ≡ check_sum self.now.bytes }
    {
        let [a, b, c, d, e, f, g, h, _] = self.bytes;
        pair_sum(a, b) + pair_sum(c, d) + pair_sum(e, f) + pair_sum(g, h)
    }
}

fn are_cusip_bytes(bytes: &[u8]) -> bool
    ensures { result ≡ list_all standard.is_cusip_byte bytes.now }
{
    bytes.iter().all(|byte| is_cusip_byte(*byte))
}

fn is_cusip_byte(byte: u8) -> bool
    ensures { result ≡ standard.is_cusip_byte byte }
{
    byte.is_ascii_digit() || byte.is_ascii_uppercase()
}

fn value_of(byte: u8) -> u32
    ensures value { result ≡ standard.value_of byte }
    ensures small { result ≤ 200 }
{
    if byte <= b'9' {
        byte.saturating_sub(b'0') as u32
    } else {
        (byte as u32).saturating_sub(55)
    }
}

fn digit_sum(number: u32) -> u32
    requires { number ≤ 400 }
    ensures value { result ≡ standard.digit_sum number }
    ensures small { result ≤ 49 }
{
    number / 10 + number % 10
}

// Every second character is doubled.
fn pair_sum(first: u8, second: u8) -> u32
    ensures value { result ≡ standard.pair_sum first second }
    ensures small { result ≤ 98 }
{
    digit_sum(value_of(first)) + digit_sum(2 * value_of(second))
}
