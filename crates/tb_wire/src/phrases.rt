//! The phrases of status lines.
ghost use Rattle.std.specs.Prelude.{◌≡◌, ◌≤◌, true, length};
ghost use Rattle.tb_wire.specs.Codes.{phrase_of, is_told};

use http::StatusCode;

#[tactic(auto, using(crate::proofs::PhraseLemmas::reason_told, crate::proofs::PhraseLemmas::few_told, crate::proofs::PhraseLemmas::status_told))]
/// The phrase of a code that replies are told by.
pub(crate) fn phrase(code: u16) -> &'static str
    requires told { is_told code ≡ true }
    ensures phrase { result.now ≡ phrase_of code }
    ensures few { length result.now ≤ 31 }
{
    let Ok(status) = StatusCode::from_u16(code) else {
        return "";
    };
    match status.canonical_reason() {
        Some(phrase) => phrase,
        None => "",
    }
}
