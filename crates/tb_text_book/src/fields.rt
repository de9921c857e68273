//! The fields of a line, which exactly one space separates.
ghost use Rattle.std.specs.Prelude.{◌≡◌, ◌≢◌, [], ◌∷◌, length, position, MatchOption};
ghost use Rattle.tb_text_book.specs.Fields.{fields, fields_of, is_blank};

/// The first field, and the text of the others where there are any.
pub fn first_field(text: &[u8]) -> (&[u8], Option<&[u8]>)
    ensures { fields text.now ≡ result.0.now ∷ fields_of result.1 }
{
    match first_blank(text) {
        Some(end) => (&text[..end], Some(&text[end + 1..])),
        None => (text, None),
    }
}

// The place of the first blank.
fn first_blank(text: &[u8]) -> Option<usize>
    ensures { result ≡ position is_blank text.now }
{
    text.iter().position(|byte| *byte == b' ')
}

/// The fields, where there are two.
pub fn two_fields(others: Option<&[u8]>) -> Option<(&[u8], &[u8])>
    ensures { MatchOption result
        (length (fields_of others.entry) ≢ 2)
        (λ two. fields_of others.entry ≡ two.0.now ∷ two.1.now ∷ []) }
{
    let (first, others) = first_field(others?);
    let (second, others) = first_field(others?);
    match others {
        None => Some((first, second)),
        Some(_) => None,
    }
}

/// The fields, where there are three.
pub fn three_fields(others: Option<&[u8]>) -> Option<(&[u8], &[u8], &[u8])>
    ensures { MatchOption result
        (length (fields_of others.entry) ≢ 3)
        (λ three. fields_of others.entry ≡ three.0.now ∷ three.1.now ∷ three.2.now ∷ []) }
{
    let (first, others) = first_field(others?);
    let (second, third) = two_fields(others)?;
    Some((first, second, third))
}
