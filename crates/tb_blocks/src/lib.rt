//! Lists whose elements are kept in blocks: an element goes in, comes out and is found in the time of a block, and an
//! add with room can't fail.
#![tactic(auto)]

mod block;
mod blocks;
mod counts;
mod large;
mod ordered;
mod pool;
mod room;
mod rows;
mod search;
#[cfg(test)]
mod tests;

pub use blocks::Blocks;
pub use ordered::Ordered;
pub use search::{Keyed, Spot};
