//! What a desk answers.

use tb_message::Verdict;

/// What a message is answered.
#[derive(Clone, Copy, Debug, PartialEq, Eq)]
pub enum Reply {
    Verdict(Verdict),
    /// The disk failed: the message may or may not have been accepted. Sent again, it is answered by what stands.
    DiskFault,
}

/// What a group of messages is answered.
#[derive(Clone, Copy, Debug, PartialEq, Eq)]
pub enum GroupReply {
    /// Each message has its verdict.
    Verdicts,
    /// The disk failed: all the messages that would have been accepted may have been, or none of them.
    DiskFault,
}
