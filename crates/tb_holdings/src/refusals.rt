//! Why a call on the book of accounts is refused. A refused call changes nothing.
use tb_units::Dollars;

/// The holder has less free.
#[derive(Clone, Copy, Debug, PartialEq, Eq)]
pub struct InsufficientFree {
    pub free: Dollars,
}

/// Why a pledge is refused.
#[derive(Clone, Copy, Debug, PartialEq, Eq)]
pub enum PledgeRefused {
    /// The holder has less free.
    InsufficientFree { free: Dollars },
    /// The holder has 1,000 open marks.
    PledgeQuota,
}

/// Why a release is refused.
#[derive(Clone, Copy, Debug, PartialEq, Eq)]
pub enum ReleaseRefused {
    /// The holder has no mark of this number.
    UnknownPledge,
    /// The caller isn't the pledgee of the mark.
    NotPledgee,
    /// Less is left of the mark.
    MoreThanPledged { left: Dollars },
}
