//! The parts of a line: positional words, options and the switch.
ghost use Rattle.std.specs.Prelude.{◌≡◌, ◌≢◌, ℕ, ◌≤◌, [], ◌∷◌, ◌++◌, map, string_bytes, length, true, false};
ghost use Rattle.std.specs.Prelude.{codes, Option, IfSome, IfNone, MatchOption, count_by};
ghost use Rattle.std.specs.List.{list_all, list_any};
ghost use Rattle.std.specs.Str.{bytes_eq};
ghost use Rattle.std.specs.Option.{option_map};
ghost use Rattle.std.specs.Fmt.{decimal};
ghost use Rattle.tb_units.specs.Names.{is_name};
ghost use Rattle.tb_words.specs.Items as spelled;
ghost use Rattle.tb_words.specs.Items.{Text, items_of, places_in, values_in, is_csv, is_known};
ghost use Rattle.tb_words.specs.Lines.{Line, Says, option_names, times};
ghost use Rattle.tb_message.specs.declared.key.Key.{Key};
ghost use Rattle.tb_terms.specs.Cusips.{is_cusip_byte};
ghost use Rattle.tb_terms.specs.declared.cusip.Cusip as declared;
ghost use Rattle.tb_words.specs.Commands.{IsBill, IsKey, key_text};
ghost use Rattle.tb_words.specs.Parts.{texts_of, names_of, only_of, standing_of, item_of};
ghost use Rattle.tb_words.specs.Parts.{IsShapeOf, HasOptionsAlone, HasPlacesAlone};

use crate::items::{Item, Items};
use tb_message::Key;
use tb_terms::Cusip;
use tb_units::{Ident, read_within};

/// The positional words of a line, at most two.
#[derive(Clone, Copy, Debug)]
pub(crate) enum Places<'a> {
    Nothing,
    One(&'a str),
    Two(&'a str, &'a str),
}

/// The options of a command.
#[derive(Clone, Copy, Debug)]
pub(crate) enum Options {
    Nothing,
    /// The operator's name alone.
    Operator,
    /// Those of `serve`.
    Serving,
    /// The operator's name and a key.
    Keyed,
    /// A bill's CUSIP alone.
    Bill,
}

/// The positional words of a line, and whether `--csv` stands.
#[derive(Clone, Copy, Debug)]
pub(crate) struct Shape<'a> {
    pub(crate) places: Places<'a>,
    pub(crate) csv: bool,
}

impl Options {
    fn has(self, name: &str) -> bool
        ensures { result ≡ list_any (bytes_eq name.now) (names_of self) }
    {
        match self {
            Options::Nothing => false,
            Options::Operator => name == "--op",
            Options::Serving => {
                name == "--op" || name == "--port" || name == "--workers" || name == "--links"
            }
            Options::Keyed => name == "--op" || name == "--key",
            Options::Bill => name == "--cusip",
        }
    }

    fn knows(self, item: Item<'_>) -> bool
        ensures { result ≡ is_known (names_of self) (item_of item.entry) }
    {
        match item {
            Item::Place(_) | Item::Csv => true,
            Item::Named { name, .. } => self.has(name),
            Item::Bare => false,
        }
    }
}

impl<'a> Places<'a> {
    // One positional word more, if there are at most two then.
    fn with(self, word: &'a str) -> Option<Places<'a>>
        ensures more { IfSome result (λ places. texts_of places ≡ texts_of self.entry ++ word.entry.now ∷ []) }
        ensures full { IfNone result (length (texts_of self.entry) ≡ 2) }
    {
        match self {
            Places::Nothing => Some(Places::One(word)),
            Places::One(first) => Some(Places::Two(first, word)),
            Places::Two(..) => None,
        }
    }
}

fn read_places<'a>(words: &'a [String]) -> Option<Places<'a>>
    ensures { MatchOption result (3 ≤ length (places_in (items_of (map string_bytes words.now))))
        (λ places. places_in (items_of (map string_bytes words.now)) ≡ texts_of places) }
{
    let mut places = Places::Nothing;
    for item in (Items { words }) {
        if let Item::Place(word) = item {
            places = places.with(word)?;
        }
    }
    Some(places)
}

fn read_switch(words: &[String]) -> Option<bool>
    ensures { result ≡ standing_of (count_by is_csv (items_of (map string_bytes words.now))) }
{
    let mut csv = false;
    for item in (Items { words }) {
        if let Item::Csv = item {
            if csv {
                return None;
            }
            csv = true;
        }
    }
    Some(csv)
}

fn has_only(words: &[String], options: Options) -> bool
    ensures { result ≡ list_all (is_known (names_of options)) (items_of (map string_bytes words.now)) }
{
    for item in (Items { words }) {
        if !options.knows(item) {
            return false;
        }
    }
    true
}

/// The only value under an option's name.
fn only<'a>(words: &'a [String], name: &str) -> Option<&'a str>
    ensures { option_map (λ value. value.now) result
        ≡ only_of (values_in name.now (items_of (map string_bytes words.now))) }
{
    let mut only = None;
    for item in (Items { words }) {
        if let Item::Named { name: found, value } = item
            && found == name
        {
            if only.is_some() {
                return None;
            }
            only = Some(value);
        }
    }
    only
}

/// The positional words and the switch of a line that has these options and no others.
pub(crate) fn read_shape<'a>(words: &'a [String], options: Options) -> Option<Shape<'a>>
    ensures shape { IfSome result (λ shape.
        IsShapeOf shape (names_of options) (items_of (map string_bytes words.now))) }
    ensures none { IfNone result ((line : Line) → length line.places ≤ 2 → option_names line ≡ names_of options
        → ¬ (Says line (items_of (map string_bytes words.now)))) }
{
    if !has_only(words, options) {
        return None;
    }
    let places = read_places(words)?;
    let csv = read_switch(words)?;
    Some(Shape { places, csv })
}

/// Whether a line has these options alone.
pub(crate) fn has_options_alone(words: &[String], options: Options) -> bool
    ensures alone { result ≡ true → HasOptionsAlone (names_of options) (items_of (map string_bytes words.now)) }
    ensures more { result ≡ false → (line : Line) → line.places ≡ [] → line.csv ≡ false
        → option_names line ≡ names_of options
        → ¬ (Says line (items_of (map string_bytes words.now))) }
{
    match read_shape(words, options) {
        Some(
            Shape {
                places: Places::Nothing,
                csv: false,
            },
        ) => true,
        _ => false,
    }
}

/// The positional words of a line that has them alone.
pub(crate) fn places_alone<'a>(words: &'a [String]) -> Option<Places<'a>>
    ensures alone { IfSome result (λ places. HasPlacesAlone (texts_of places) (items_of (map string_bytes words.now))) }
    ensures none { IfNone result ((line : Line) → length line.places ≤ 2 → line.csv ≡ false → line.options ≡ []
        → ¬ (Says line (items_of (map string_bytes words.now)))) }
{
    match read_shape(words, Options::Nothing) {
        Some(Shape { places, csv: false }) => Some(places),
        _ => None,
    }
}

/// The name that stands alone under an option.
pub(crate) fn name_under(words: &[String], option: &str) -> Option<Ident>
    ensures name { IfSome result (λ name. (is_name name ≡ true)
        × (values_in option.now (items_of (map string_bytes words.now)) ≡ name ∷ [])) }
    ensures none { IfNone result ((name : Text) → is_name name ≡ true
        → values_in option.now (items_of (map string_bytes words.now)) ≢ name ∷ []) }
{
    Ident::read(only(words, option)?)
}

/// The number in a range that stands alone under an option.
pub(crate) fn number_under(words: &[String], option: &str, least: u64, most: u64) -> Option<u64>
    ensures number { IfSome result (λ number. ((least ≤ number) × (number ≤ most))
        × (values_in option.now (items_of (map string_bytes words.now)) ≡ decimal number ∷ [])) }
    ensures none { IfNone result ((number : ℕ) → (least ≤ number) × (number ≤ most)
        → values_in option.now (items_of (map string_bytes words.now)) ≢ decimal number ∷ []) }
{
    read_within(only(words, option)?, least, most)
}

/// The key word that stands alone under `--key`.
pub(crate) fn caller(words: &[String]) -> Option<Key>
    ensures key { IfSome result (λ key. IsKey key
        × (values_in (codes "--key") (items_of (map string_bytes words.now)) ≡ key_text key ∷ [])) }
    ensures none { IfNone result ((key : Key) → IsKey key
        → values_in (codes "--key") (items_of (map string_bytes words.now)) ≢ key_text key ∷ []) }
{
    read_key(only(words, "--key")?)
}

fn read_key(text: &str) -> Option<Key>
    ensures key { IfSome result (λ key. IsKey key × (text.now ≡ key_text key)) }
    ensures none { IfNone result ((key : Key) → IsKey key → text.now ≢ key_text key) }
{
    Key::read(text)
}

/// The CUSIP that stands alone under `--cusip`.
pub(crate) fn bill_under(words: &[String]) -> Option<Cusip>
    ensures bill { IfSome result (λ bill. IsBill bill
        × (values_in (codes "--cusip") (items_of (map string_bytes words.now)) ≡ bill.bytes ∷ [])) }
    ensures none { IfNone result ((bill : declared.Cusip) → IsBill bill
        → values_in (codes "--cusip") (items_of (map string_bytes words.now)) ≢ bill.bytes ∷ []) }
{
    read_bill(only(words, "--cusip")?)
}

/// The CUSIP that a text is, if it is one of nine digits and capital letters.
pub(crate) fn read_bill(text: &str) -> Option<Cusip>
    ensures bill { IfSome result (λ bill. IsBill bill × (text.now ≡ bill.bytes)) }
    ensures none { IfNone result ((bill : declared.Cusip) → IsBill bill → text.now ≢ bill.bytes) }
{
    let bill = nine_bytes(text)?;
    if are_bill_bytes(&bill.bytes) {
        Some(bill)
    } else {
        None
    }
}

fn are_bill_bytes(bytes: &[u8]) -> bool
    ensures { result ≡ list_all is_cusip_byte bytes.now }
{
    bytes
        .iter()
        .all(|byte| byte.is_ascii_digit() || byte.is_ascii_uppercase())
}

/// The nine bytes that a text is, as a CUSIP.
pub(crate) fn nine_bytes(text: &str) -> Option<Cusip>
    ensures bill { IfSome result (λ bill. (bill.bytes ≡ text.now) × (length bill.bytes ≡ 9)) }
    ensures none { IfNone result (length text.now ≢ 9) }
{
    let text = text.as_bytes();
    if text.len() != 9 {
        return None;
    }
    let mut bytes = [0; 9];
    bytes.copy_from_slice(text);
    Some(Cusip { bytes })
}
