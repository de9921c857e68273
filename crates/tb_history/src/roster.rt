//! Submitters and bidders.
use tb_units::Ident;

/// A submitter and its key.
#[derive(Clone, Copy, Debug, PartialEq, Eq)]
pub struct Registration {
    pub submitter: Ident,
    pub key: Ident,
}

/// A bidder and the one submitter that it bids through.
#[derive(Clone, Copy, Debug, PartialEq, Eq)]
pub struct Enrolment {
    pub bidder: Ident,
    pub submitter: Ident,
}
