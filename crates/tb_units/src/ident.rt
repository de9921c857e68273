//! Names of submitters, bidders and auctions.
ghost use Rattle.std.specs.Prelude.{◌≡◌, ◌≤◌, [], ◌∷◌, ◌++◌, ◌↔◌, true, false, length, drop, Some, IfSome, IsNone};
ghost use Rattle.std.specs.List.{list_all};
ghost use Rattle.std.specs.Cmp;
ghost use Rattle.std.specs.Cmp.Lexicographic.{pointwise, slice_cmp, nat_list_eq_equiv, nat_list_cmp_total, texts_ties, texts_po};
ghost use Rattle.std.specs.Ordering.{nat_cmp};
ghost use Rattle.std.specs.Hash.{same_Alike};
ghost use Rattle.std.specs.Str.{bytes_eq};
ghost use Rattle.std.proofs.Common.{rules};
ghost use Rattle.std.proofs.lemmas.Slice.Eq.{bytes_eq-Decides};
ghost use Rattle.tb_units.specs.Names.{is_name, name_of};
ghost use Rattle.tb_units.specs.Names as spelled;

use crate::padded;
use std::cmp::Ordering;
use std::hash::{Hash, Hasher};
use std::marker::Model;

/// A name of 1 to 32 bytes of `a-z0-9_-`, the first of `a-z0-9`. Contracts see its bytes.
#[derive(Clone, Copy, Debug)]
pub struct Ident {
    bytes: [u8; 32],
    used: u8,
}

impl Model for Ident {
    ghost use Rattle.std.specs.Prelude.{◌≡◌, ℕ, ◌-◌, List, ◌++◌, length, take, replicate, true};
    ghost use Rattle.tb_units.specs.Names.{is_name};

    ghost Value = { List ℕ };

    ghost use Rattle.tb_units.specs.Padding.{IsPadded, IsPadded-inverse};

    ghost view = { λ name. take name.used name.bytes };

    // The bytes behind the name are zeros, so that a name is told by its bytes.
    ghost invariant = { λ name. IsPadded name.bytes name.used × (is_name (take name.used name.bytes) ≡ true) };

    ghost inverse = { λ text. record { bytes = text ++ replicate (32 - length text) 0; used = length text } };

    ghost inverse_ok = { λ name holds. IsPadded-inverse name holds.0 };
}

impl Ident {
    /// Reads a name. Every other text is `None`.
    pub fn read(text: &str) -> Option<Ident>
        ensures read { IfSome result (λ name. name ≡ text.now) }
        ensures none { IsNone result ↔ (is_name text.now ≡ false) }
        ensures name { result ≡ name_of text.now }
    {
        Ident::of_bytes(text.as_bytes())
    }

    /// The name that these bytes are. `None` where they are none.
    pub fn of_bytes(bytes: &[u8]) -> Option<Ident>
        ensures { result ≡ name_of bytes.now }
    {
        if !is_a_name(bytes) {
            return None;
        }
        let mut padded = [0; 32];
        put_front(&mut padded, bytes);
        Some(Ident {
            bytes: padded,
            used: bytes.len() as u8,
        })
    }

    /// The bytes of the name.
    pub fn bytes(&self) -> &[u8]
        ensures bytes { result.now ≡ self.now }
        ensures name { is_name self.now ≡ true }
        ensures some { 1 ≤ length self.now }
        ensures few { length self.now ≤ 32 }
    {
        &self.bytes[..self.used as usize]
    }
}

// Names are equal where their bytes are, which are compared eight at a time.
impl PartialEq for Ident {
    ghost eq = { bytes_eq };

    ghost laws = { Cmp.partial_equiv_from_equiv nat_list_eq_equiv };

    fn eq(&self, other: &Ident) -> bool {
        self.cmp(other).is_eq()
    }
}

impl Eq for Ident {
    ghost laws = { nat_list_eq_equiv };
}

// The order of names is that of their bytes, a shorter name before one that goes on.
impl PartialOrd for Ident {
    ghost partial_cmp = { λ one other. Some (slice_cmp nat_cmp one other) };

    ghost laws = { texts_po };

    fn partial_cmp(&self, other: &Ident) -> Option<Ordering> {
        Some(self.cmp(other))
    }
}

impl Ord for Ident {
    ghost cmp = { slice_cmp nat_cmp };

    ghost total = { nat_list_cmp_total };

    ghost matches_partial_cmp = { Prim.search rules };

    ghost matches_eq = { texts_ties };

    fn cmp(&self, other: &Ident) -> Ordering {
        padded::order(&self.bytes, &other.bytes)
    }
}

// A name is hashed in one write: a slice would be hashed byte by byte.
impl Hash for Ident {
    ghost hash_input = { λ name. name ∷ [] };

    ghost respects_eq = { (same_Alike (λ name. name ∷ []) bytes_eq-Decides).fed };

    fn hash<H: Hasher>(&self, state: &mut H) {
        state.write(self.bytes());
    }
}

fn is_name_start(byte: u8) -> bool
    ensures { result ≡ spelled.is_name_start byte }
{
    byte.is_ascii_lowercase() || byte.is_ascii_digit()
}

fn is_name_byte(byte: u8) -> bool
    ensures { result ≡ spelled.is_name_byte byte }
{
    is_name_start(byte) || byte == b'_' || byte == b'-'
}

#[tactic(auto, using(std::proofs::lemmas::Bool::Decides::nat_tests), unfolding(crate::specs::Names::is_name))]
fn is_a_name(text: &[u8]) -> bool
    ensures { result ≡ is_name text.now }
{
    if text.is_empty() || text.len() > 32 || !is_name_start(text[0]) {
        return false;
    }
    all_name_bytes(text)
}

fn all_name_bytes(text: &[u8]) -> bool
    ensures { result ≡ list_all spelled.is_name_byte text.now }
{
    text.iter().all(|byte| is_name_byte(*byte))
}

// Writes the text over the front of the bytes.
fn put_front(bytes: &mut [u8], text: &[u8])
    requires { length text.now ≤ length bytes.old }
    ensures { bytes.new ≡ text.now ++ drop (length text.now) bytes.old }
{
    bytes[..text.len()].copy_from_slice(text);
}
