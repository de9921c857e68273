//! What a disk in memory notes of each call.

/// A call as it took place. A torn write is one that failed.
#[derive(Clone, Copy, Drop)]
pub(crate) enum Note {
    Write { place: u64, size: u64 },
    TornWrite { place: u64, size: u64 },
    Cut { length: u64 },
    Sync,
    Nothing,
}
