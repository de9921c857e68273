//! Room lasts: what is taken for a list of messages serves each of them, in order.
ghost use Rattle.std.specs.Prelude.{◌∷◌, [], List};
ghost use Rattle.tb_message.specs.declared.message.Message.{Message};
ghost use Rattle.tb_shelving.specs.Rooms.{Fits, KeepsRoom, Room, TakesRoom};

/// Holds of any room and messages. It does nothing.
pub fn room_lasts()
    ensures empty { (room : Room) → Fits room [] }
    ensures one { (room : Room) (message : Message) (messages : List Message) → Fits room (message ∷ messages)
        → Fits room (message ∷ []) }
    ensures rest { (room : Room) (message : Message) (messages : List Message) → Fits room (message ∷ messages)
        → Fits room messages }
    ensures after { (old new : Room) (message : Message) (messages : List Message) → Fits old (message ∷ messages)
        → TakesRoom message old new → Fits new messages }
    ensures kept { (old new : Room) (messages : List Message) → Fits old messages → KeepsRoom old new
        → Fits new messages }
{}
