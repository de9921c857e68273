//! What has to be made before the top call.

/// What has to be made before the top call: whether the house's journal is to be opened, whether the register is, and
/// so many gates of so many links each, on a port of the local machine.
#[derive(Clone, Copy, Debug, PartialEq, Eq)]
pub struct Plan {
    pub journal: bool,
    pub register: bool,
    pub port: u16,
    pub workers: u32,
    pub links: u64,
}
