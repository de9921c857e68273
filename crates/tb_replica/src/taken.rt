//! What a parcel is answered.

/// What became of a parcel.
#[derive(Clone, Copy, Debug, PartialEq, Eq)]
pub enum Taken {
    /// So many entries were added: its own, and those behind it that had been kept.
    Added(u64),
    /// Its entry stands already.
    Standing,
    /// It is kept until those before it have come.
    Ahead,
    /// It is too far ahead to be kept.
    Dropped,
}

/// Why a parcel isn't taken. The follower is given up then.
#[derive(Clone, Copy, Debug, PartialEq, Eq)]
pub enum TakeFault {
    /// The entry of this place can't be that of the history that is followed.
    Forked(u64),
    /// The disk failed, and its count of faults has risen.
    DiskFault,
    OutOfMemory,
}
