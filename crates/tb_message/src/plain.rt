//! Plain objects of JSON, read with no tree: each member is a text, a whole number of 64 bits, a truth or null.
ghost use Rattle.std.specs.Prelude.{◌≡◌, ◌==◌, ◌<◌, length, reverse, slice_index, true, false};
ghost use Rattle.std.specs.Prelude.{Some, IfSome, IsTrue, option_map};
ghost use Rattle.json.specs.Reads.{token_of};
ghost use Rattle.serde_json.specs.Data.{number};
ghost use Rattle.serde_json.specs.Find.{get, get_member};
ghost use Rattle.serde_json.specs.Read.{read, number_of, number_from};
ghost use Rattle.tb_terms.specs.Refusals.{member_of};
ghost use Rattle.tb_message.specs.Plain.{leaf_data, leaf_said, members_data, plain_data, IsNext};

use crate::object::Object;
use fast_float::Numeral;
use json::{Reader, Scratch, Token};
use std::alloc::Global;
use tb_terms::Field;

// A request has at most fourteen members.
const MEMBERS: usize = 16;

/// What a member of a plain object says.
#[derive(Clone, Copy, Drop)]
pub(crate) enum Leaf<'a> {
    Text(&'a str),
    Whole(u64),
    Below(i64),
    Truth(bool),
    Null,
}

/// A member of a plain object.
#[derive(Clone, Copy, Drop)]
pub(crate) struct Member<'a> {
    pub(crate) name: &'a str,
    pub(crate) leaf: Leaf<'a>,
}

/// A plain object: its members in the order of the text. Of a name that comes twice the last counts.
#[derive(Drop)]
pub(crate) struct Plain<'a> {
    pub(crate) members: Vec<Member<'a>>,
}

impl<'a> Plain<'a> {
    /// Reads a plain object. `None` where the text is none, and where there was no memory.
    pub(crate) fn read(alloc: Global, text: &'a str, scratch: &'a mut Scratch) -> Option<Plain<'a>>
        ensures { IfSome result (λ plain. read text.now ≡ Some (plain_data plain.members.items)) }
    {
        let mut reader = Reader::new(text, scratch).ok()?;
        let Some(Token::BeginObject) = reader.next() else {
            return None;
        };
        let mut members = Vec::with_capacity(alloc, MEMBERS).ok()?;
        'members: while let Some(member) = next_member(&mut reader)? {
            members.push(member).ok()?;
        }
        if reader.next().is_some() {
            return None;
        }
        Some(Plain { members })
    }

    fn leaf(&self, field: Field) -> Option<Leaf<'a>>
        ensures { option_map leaf_data result ≡ get (member_of field) (plain_data self.now.members.items) }
    {
        last_named(&self.members, field.member())
    }
}

// The next member, or `None` at the brace that closes the object.
fn next_member<'a>(reader: &mut Reader<'a>) -> Option<Option<Member<'a>>>
    ensures { IfSome result (λ next. IsNext reader.old next reader.new) }
{
    let first = reader.next()?;
    match first {
        Token::Key(name) => {
            let second = reader.next()?;
            let leaf = leaf_of(second)?;
            Some(Some(Member { name, leaf }))
        }
        Token::EndObject => Some(None),
        _ => None,
    }
}

// What a token says by itself. `None` where it says nothing, and where it says no whole number of 64 bits.
fn leaf_of<'a>(token: Token<'a>) -> Option<Leaf<'a>>
    ensures { IfSome result (λ leaf. leaf_said (token_of token.entry) ≡ Some (leaf_data leaf)) }
{
    match token {
        Token::String(text) => Some(Leaf::Text(text)),
        Token::Number(text) => number_leaf(text),
        Token::Bool(truth) => Some(Leaf::Truth(truth)),
        Token::Null => Some(Leaf::Null),
        _ => None,
    }
}

fn number_leaf<'a>(text: &str) -> Option<Leaf<'a>>
    ensures { IfSome result (λ leaf. option_map number (number_of text.now) ≡ Some (leaf_data leaf)) }
{
    let bytes = text.as_bytes();
    if has_minus(bytes) {
        negative_leaf(&Numeral::scan(&bytes[1..]))
    } else {
        unsigned_leaf(&Numeral::scan(bytes))
    }
}

fn has_minus(bytes: &[u8]) -> bool
    ensures value { result ≡ (slice_index bytes.now 0 == 45) }
    ensures some { IsTrue result → 0 < length bytes.now }
{
    !bytes.is_empty() && bytes[0] == b'-'
}

fn unsigned_leaf<'a>(numeral: &Numeral<'_>) -> Option<Leaf<'a>>
    ensures { IfSome result (λ leaf. option_map number (number_from false numeral.now) ≡ Some (leaf_data leaf)) }
{
    match numeral.to_u64() {
        Some(number) => Some(Leaf::Whole(number)),
        None => None,
    }
}

// `-0` is none.
fn negative_leaf<'a>(numeral: &Numeral<'_>) -> Option<Leaf<'a>>
    ensures { IfSome result (λ leaf. option_map number (number_from true numeral.now) ≡ Some (leaf_data leaf)) }
{
    if let Some(number) = numeral.to_i64(true) {
        if number < 0 {
            return Some(Leaf::Below(number));
        }
    }
    None
}

// What the last member of that name says.
fn last_named<'a>(members: &[Member<'a>], name: &str) -> Option<Leaf<'a>>
    ensures { option_map leaf_data result ≡ get_member name.now (members_data (reverse members.now)) }
{
    let mut left = members.len();
    while left > 0 {
        left -= 1;
        let member = members[left];
        if member.name == name {
            return Some(member.leaf);
        }
    }
    None
}

impl<'a> Object for Plain<'a> {
    ghost said = { λ plain. plain_data plain.members.items };

    fn is_object(&self) -> bool {
        true
    }

    fn text(&self, field: Field) -> Option<&str> {
        match self.leaf(field)? {
            Leaf::Text(text) => Some(text),
            _ => None,
        }
    }

    fn whole(&self, field: Field) -> Option<u64> {
        match self.leaf(field)? {
            Leaf::Whole(number) => Some(number),
            _ => None,
        }
    }

    fn signed(&self, field: Field) -> Option<i64> {
        match self.leaf(field)? {
            Leaf::Whole(number) if number <= i64::MAX as u64 => Some(number as i64),
            Leaf::Below(number) => Some(number),
            _ => None,
        }
    }
}
