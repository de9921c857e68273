//! The order of texts with zeros behind them, eight bytes at a time.
ghost use Rattle.std.specs.Prelude.{◌≡◌, ◌+◌, ◌*◌, ◌<◌, ◌≤◌, take, drop};
ghost use Rattle.std.specs.Cmp.Lexicographic.{slice_cmp};
ghost use Rattle.std.specs.Ordering.{nat_cmp};
ghost use Rattle.tb_units.specs.Words.{big_endian};

use std::cmp::Ordering;

/// The order of two arrays by their bytes.
pub fn order(one: &[u8; 32], other: &[u8; 32]) -> Ordering
    ensures { result ≡ slice_cmp nat_cmp one.now other.now }
{
    'words: for index in 0..4 {
        let (left, right) = (word(one, 8 * index), word(other, 8 * index));
        if left != right {
            return left.cmp(&right);
        }
    }
    Ordering::Equal
}

// The eight bytes from the place on, as a number whose first byte weighs most. In line it is one read of memory.
#[inline(always)]
fn word(bytes: &[u8; 32], place: usize) -> u64
    requires { place + 8 ≤ 32 }
    ensures { result ≡ big_endian 0 (take 8 (drop place bytes.now)) }
{
    let mut eight = [0; 8];
    eight.copy_from_slice(&bytes[place..place + 8]);
    u64::from_be_bytes(eight)
}
