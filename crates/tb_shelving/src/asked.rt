//! What has a message: an entry that is undecided, and a message that is asked under a number.
ghost use Rattle.std.specs.Prelude.{◌≡◌};
ghost use Rattle.tb_message.specs.declared.message.Message.{Message};

use tb_message::{Entry, Message};

/// What has a message.
pub trait HasMessage {
    ghost message_of: { Self → Message };

    fn message(&self) -> &Message
        ensures { result.now ≡ message_of self.now };
}

impl HasMessage for Entry {
    ghost message_of = { λ entry. entry.message };

    fn message(&self) -> &Message {
        &self.message
    }
}

/// A message beside its number.
impl HasMessage for (u64, Message) {
    ghost message_of = { λ asked. asked.1 };

    fn message(&self) -> &Message {
        &self.1
    }
}
