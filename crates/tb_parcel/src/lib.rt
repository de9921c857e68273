//! Parcels: an entry with its place in a history, as bytes.
#![tactic(auto)]

mod bytes;
mod parcel;

pub use bytes::ParcelBytes;
pub use parcel::{Parcel, ParcelFront, put_parcel, read_parcel};
