//! Lines of a script.
ghost use Rattle.std.specs.Prelude.{◌≡◌, ◌≢◌, ◌<◌, ◌≤◌, length, position, IfSome, IfNone, MatchOption};
ghost use Rattle.std.specs.Fmt.{decimal};
ghost use Rattle.std.specs.List.{position_or_len, before_first, after_first};
ghost use Rattle.tb_units.specs.declared.moment.Moment.{Moment};
ghost use Rattle.tb_message.specs.Keys.{key_of};
ghost use Rattle.tb_text_book.specs.Fields.{is_blank};
ghost use Rattle.tb_commands.specs.ScriptLines.{IsAsk, IsEnd, SpellsFrom, SpellsLine};

use std::str;
use tb_lines::LONGEST_LINE;
use tb_message::Key;
use tb_units::Moment;

/// What the caller of a key asks at a moment, by a text that is to be JSON and goes from this place to the line's end.
#[derive(Clone, Copy, Debug, PartialEq, Eq)]
pub struct Ask {
    pub moment: Moment,
    pub key: Key,
    pub json_at: usize,
}

/// A line of a script.
#[derive(Clone, Copy, Debug, PartialEq, Eq)]
pub enum ScriptLine {
    Ask(Ask),
    End,
}

/// Reads a line of a script. Every other text is `None`.
pub fn read_script_line(text: &[u8]) -> Option<ScriptLine>
    ensures read { IfSome result (SpellsLine text.now) }
    ensures none { IfNone result ((¬ (IsAsk text.now)) × (¬ (IsEnd text.now))) }
{
    if text == b"end".as_slice() {
        return Some(ScriptLine::End);
    }
    if text.len() > LONGEST_LINE {
        return None;
    }
    Some(ScriptLine::Ask(read_ask(text)?))
}

// `MOMENT KEY JSON`.
fn read_ask(text: &[u8]) -> Option<Ask>
    requires { length text.now ≤ 8192 }
    ensures read { IfSome result (SpellsFrom text.now) }
    ensures none { IfNone result (¬ (IsAsk text.now)) }
{
    let (moment, rest) = first_word(text)?;
    let (key, json) = first_word(rest)?;
    if json.is_empty() {
        return None;
    }
    let moment = read_moment(moment)?;
    let key = read_key(key)?;
    Some(Ask {
        moment,
        key,
        json_at: text.len() - json.len(),
    })
}

fn read_moment(text: &[u8]) -> Option<Moment>
    ensures read { IfSome result (λ moment. text.now ≡ decimal moment.seconds) }
    ensures none { IfNone result ((moment : Moment) → text.now ≢ decimal moment.seconds) }
{
    match str::from_utf8(text) {
        Ok(text) => Moment::read(text),
        Err(_) => None,
    }
}

fn read_key(text: &[u8]) -> Option<Key>
    ensures { result ≡ key_of text.now }
{
    match str::from_utf8(text) {
        Ok(text) => Key::read(text),
        Err(_) => None,
    }
}

// The bytes before the first space, and those behind it.
fn first_word(text: &[u8]) -> Option<(&[u8], &[u8])>
    ensures { MatchOption result
        (length text.now ≤ position_or_len is_blank text.now)
        (λ parts. (position_or_len is_blank text.now < length text.now)
        × (parts.0.now ≡ before_first is_blank text.now) × (parts.1.now ≡ after_first is_blank text.now)) }
{
    let end = first_space(text)?;
    Some((&text[..end], &text[end + 1..]))
}

fn first_space(text: &[u8]) -> Option<usize>
    ensures { result ≡ position is_blank text.now }
{
    text.iter().position(|byte| *byte == b' ')
}
