//! The lines that rows are answered by.
ghost use Rattle.std.specs.Prelude.{
  ◌≡◌,
  ◌+◌,
  ◌*◌,
  ◌-◌,
  ◌≤◌,
  ◌++◌,
  ◌∷◌,
  [],
  ℕ,
  List,
  None,
  Some,
  length,
  map,
  replicate,
  vec_len,
  vec_capacity,
};
ghost use Rattle.std.specs.Fmt.{decimal};
ghost use Rattle.tb_units.specs.Bytes.{blank, line_feed};
ghost use Rattle.tb_message.specs.declared.verdict.Verdict.{Verdict};
ghost use Rattle.tb_commands.specs.ImportRun.{same_lines, verdict_lines};
ghost use Rattle.tb_commands.specs.Turns.{told};

use tb_message::{Message, Verdict, verdict_line};
use tb_units::Short;

/// Bytes of the line of a row, at most: a number, a space, a verdict or a fault, and a line feed.
pub const LONGEST_ROW: usize = 210;

/// Puts the lines of rows behind the text that are all answered the same.
pub fn push_same(text: &mut Vec<u8>, rows: &[(u64, Message)], answer: &[u8])
    requires short { length answer.now ≤ 160 }
    requires room { vec_len text.old + 210 * length rows.now ≤ vec_capacity text.old }
    ensures lines { text.new.items ≡ text.old.items ++ same_lines (answer.now ++ line_feed ∷ []) rows.now }
    ensures room { vec_capacity text.new ≡ vec_capacity text.old }
{
    for row in rows {
        push_row(text, row.0, answer);
    }
}

/// Puts the lines of rows behind the text that are answered by a verdict each, which stand in the first places.
pub fn push_verdicts(text: &mut Vec<u8>, rows: &[(u64, Message)], verdicts: &[Option<Verdict>; 64])
    requires few { length rows.now ≤ 64 }
    requires room { vec_len text.old + 210 * length rows.now ≤ vec_capacity text.old }
    ensures lines { (given : List Verdict)
        → length given ≡ length rows.now
        → verdicts.now ≡ map Some given ++ replicate (64 - length given) None
        → text.new.items ≡ text.old.items ++ verdict_lines rows.now given }
    ensures room { vec_capacity text.new ≡ vec_capacity text.old }
{
    for (place, row) in rows.iter().enumerate() {
        push_verdict(text, row.0, &verdicts[place]);
    }
}

// The line of a row that is answered by this verdict, if there is one.
fn push_verdict(text: &mut Vec<u8>, number: u64, verdict: &Option<Verdict>)
    requires room { vec_len text.old + 210 ≤ vec_capacity text.old }
    ensures line { (said : Verdict) → verdict.now ≡ Some said
        → text.new.items ≡ text.old.items ++ (decimal number ++ blank ∷ told said) }
    ensures length { vec_len text.new ≤ vec_len text.old + 210 }
    ensures room { vec_capacity text.new ≡ vec_capacity text.old }
{
    if let Some(verdict) = verdict {
        push_row(text, number, verdict_line(verdict).bytes());
    }
}

fn push_row(text: &mut Vec<u8>, number: u64, answer: &[u8])
    requires short { length answer.now ≤ 160 }
    requires room { vec_len text.old + 210 ≤ vec_capacity text.old }
    ensures line { text.new.items ≡ text.old.items ++ (decimal number ++ blank ∷ (answer.now ++ line_feed ∷ [])) }
    ensures length { vec_len text.new ≤ vec_len text.old + 210 }
    ensures room { vec_capacity text.new ≡ vec_capacity text.old }
{
    push_bytes(text, Short::whole(number as u128).bytes());
    text.push_reserved(b' ');
    push_bytes(text, answer);
    text.push_reserved(b'\n');
}

fn push_bytes(text: &mut Vec<u8>, bytes: &[u8])
    requires room { vec_len text.old + length bytes.now ≤ vec_capacity text.old }
    ensures bytes { text.new.items ≡ text.old.items ++ bytes.now }
    ensures length { vec_len text.new ≡ vec_len text.old + length bytes.now }
    ensures room { vec_capacity text.new ≡ vec_capacity text.old }
{
    for byte in bytes {
        text.push_reserved(*byte);
    }
}
