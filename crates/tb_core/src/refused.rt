//! Why a query has no reading.
use tb_terms::Refusal;

/// Why a query has no reading.
#[derive(Clone, Copy, Debug, PartialEq, Eq)]
pub enum QueryRefused {
    /// By the table of refusals.
    Refused(Refusal),
    /// There was no memory for the reading.
    OutOfMemory,
}
