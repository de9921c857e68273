//! The two forms of a journal.
ghost use Rattle.std.specs.Prelude.{◌≡◌};
ghost use Rattle.tb_journal.specs.Frames.{title_of, head_of, first_place};

/// Which form a journal has.
#[derive(Clone, Copy, Debug, PartialEq, Eq)]
pub enum Form {
    /// Sixteen bytes of title; a frame has four bytes of length.
    First,
    /// A seal behind the title; a frame has four bytes of length and eight of its ordinal.
    Second,
}

impl Form {
    #[tactic(auto, unfolding(crate::specs::Frames::title_of))]
    pub(crate) fn title(self) -> [u8; 16]
        ensures { result ≡ title_of self }
    {
        match self {
            Form::First => *b"TBHOSTJOURNAL001",
            Form::Second => *b"TBHOSTJOURNAL002",
        }
    }

    /// The place of the first gate byte, behind the header.
    pub(crate) fn first_gate(self) -> u64
        ensures { result ≡ first_place self }
    {
        match self {
            Form::First => 16,
            Form::Second => 17,
        }
    }

    /// How many bytes of a frame stand between its gate byte and its payload.
    pub(crate) fn head_size(self) -> usize
        ensures { result ≡ head_of self }
    {
        match self {
            Form::First => 4,
            Form::Second => 12,
        }
    }
}
