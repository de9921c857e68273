//! A text that grows at its end.
ghost use Rattle.std.specs.Prelude.{◌≡◌, ◌≤◌, ◌^◌, [], ◌∷◌, ◌++◌, IfOk, OnOk};
ghost use Rattle.tb_units.specs.Bytes.{blank, line_feed};
ghost use Rattle.tb_report.specs.Lines.{line};

use std::alloc::Global;
use std::marker::Model;
use tb_units::OutOfMemory;

/// The bytes that most lines have at the most.
const COMMON: u128 = 48;

/// A text. Contracts see its bytes.
#[derive(Drop)]
pub(crate) struct Text {
    bytes: Vec<u8>,
}

impl Model for Text {
    ghost use Rattle.std.specs.Prelude.{ℕ, List};

    ghost Value = { List ℕ };

    ghost view = { λ text. text.bytes.items };
}

impl Text {
    /// The empty text, with room for so many lines of common length.
    pub(crate) fn with_room(alloc: Global, lines: u128) -> Result<Text, OutOfMemory>
        requires { lines ≤ 2 ^ 64 }
        ensures { IfOk result (λ text. text ≡ []) }
    {
        let room = (COMMON * lines).min(usize::MAX as u128);
        let bytes = Vec::with_capacity(alloc, room as usize)?;
        Ok(Text { bytes })
    }

    /// Its bytes.
    pub(crate) fn into_bytes(self) -> Vec<u8>
        ensures { result.items ≡ self }
    {
        self.bytes
    }

    /// Puts the first word of a line at the end.
    pub(crate) fn begin(&mut self, word: &[u8]) -> Result<(), OutOfMemory>
        ensures { OnOk result (self.new ≡ self.old ++ word.now) }
    {
        self.bytes.extend_from_slice(word)?;
        Ok(())
    }

    /// Puts a further word of a line at the end.
    pub(crate) fn word(&mut self, word: &[u8]) -> Result<(), OutOfMemory>
        ensures { OnOk result (self.new ≡ self.old ++ blank ∷ word.now) }
    {
        self.bytes.push(b' ')?;
        self.bytes.extend_from_slice(word)?;
        Ok(())
    }

    /// Ends a line.
    pub(crate) fn end(&mut self) -> Result<(), OutOfMemory>
        ensures { OnOk result (self.new ≡ self.old ++ line_feed ∷ []) }
    {
        self.bytes.push(b'\n')?;
        Ok(())
    }

    /// Puts a line that is told as it stands at the end.
    #[tactic(auto, using(crate::proofs::Texts::joined))]
    pub(crate) fn line(&mut self, words: &[u8]) -> Result<(), OutOfMemory>
        ensures { OnOk result (self.new ≡ self.old ++ line (words.now ∷ [])) }
    {
        self.begin(words)?;
        self.end()
    }

    /// Puts a line of a label and a value at the end.
    #[tactic(auto, using(crate::proofs::Texts::joined))]
    pub(crate) fn labelled(&mut self, label: &[u8], value: &[u8]) -> Result<(), OutOfMemory>
        ensures { OnOk result (self.new ≡ self.old ++ line (label.now ∷ value.now ∷ [])) }
    {
        self.begin(label)?;
        self.word(value)?;
        self.end()
    }
}
