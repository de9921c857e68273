//! The words that lines of a book begin with.
ghost use Rattle.std.specs.Prelude.{◌≡◌, ◌≢◌, IfSome, IfNone};
ghost use Rattle.tb_text_book.specs.Words.{spelling_of};
ghost use Rattle.tb_text_book.specs.declared.word.Word.{Word};

/// The first word of a line.
#[derive(Clone, Copy, Debug, PartialEq, Eq)]
pub enum Word {
    Offering,
    Noncompetitive,
    Competitive,
    Position,
    End,
}

/// The word that the text is.
pub fn word_of(text: &[u8]) -> Option<Word>
    ensures word { IfSome result (λ word. text.now ≡ spelling_of word) }
    ensures none { IfNone result ((word : Word) → text.now ≢ spelling_of word) }
{
    match text {
        b"n" => Some(Word::Noncompetitive),
        b"c" => Some(Word::Competitive),
        b"p" => Some(Word::Position),
        b"end" => Some(Word::End),
        b"offering" => Some(Word::Offering),
        _ => None,
    }
}
