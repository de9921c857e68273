//! The versions of the journal, whose records differ in the bytes of a moment.

/// A version of the journal. Records of the first have a moment in four bytes, those of the second in eight.
#[derive(Clone, Copy, Debug, PartialEq, Eq)]
pub enum Version {
    First,
    Second,
}
