//! A disk that may fail and crash: what its calls promise, what a crash may leave, a disk in memory that tells all of
//! it, an adapter over a real file that tells nothing, and a disk without a file.
#![tactic(auto)]

mod bytes;
mod disk;
mod extent;
mod file_disk;
mod laws;
mod log;
mod memory_disk;
mod name;
mod no_disk;
mod note;
mod pages;
mod system_file;

pub use disk::Disk;
pub use file_disk::{FileDisk, LastSync};
pub use laws::{
    contents_may_be_left, images_are_those_of_the_sentences, unsynced_may_be_lost,
    unsynced_may_be_torn,
};
pub use memory_disk::MemoryDisk;
pub use no_disk::NoDisk;
