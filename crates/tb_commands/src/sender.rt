//! In whose name a command is given.

use tb_message::Key;
use tb_units::Ident;

/// In whose name a command is given: the caller of a key. The operator's is `op:` and this name.
#[derive(Clone, Copy, Debug, PartialEq, Eq)]
pub struct Sender {
    pub operator: Ident,
    pub key: Key,
}
