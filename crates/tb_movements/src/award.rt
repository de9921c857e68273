//! What a settlement gives to a participant.
use tb_units::Dollars;

/// Par that a participant is credited. A participant with several bidders may have several.
#[derive(Clone, Copy, Debug, PartialEq, Eq)]
pub struct Award {
    pub holder: u32,
    pub par: Dollars,
}
