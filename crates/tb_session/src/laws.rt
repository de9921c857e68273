//! Laws of sessions and of the numbers that stand for calls and histories under the lock. Each is the contract of a
//! function that does nothing.
ghost use Rattle.std.specs.Prelude.{◌≡◌, ℕ, ◌++◌, ◌-◌, ◌≤◌, ◌⊎◌, Bool, List, [], Option, All, count_by};
ghost use Rattle.tb_link.specs.Counts.{Rose, last_count};
ghost use Rattle.tb_disk.specs.Past.{Past};
ghost use Rattle.tb_message.specs.declared.message.Entry.{Entry};
ghost use Rattle.tb_message.specs.Spelling.{IsInRange};
ghost use Rattle.tb_desk.specs.Stands.{CrashesLeave, LeavesEither};
ghost use Rattle.tb_lock.specs.declared.view.View.{View};
ghost use Rattle.tb_lock.specs.Turns.{IsTaken};
ghost use Rattle.tb_session.specs.declared.answer.Answer.{Answer};
ghost use Rattle.tb_session.specs.declared.called.Called.{Called};
ghost use Rattle.tb_session.specs.declared.end.End.TheVariants as end;
ghost use Rattle.tb_session.specs.declared.room.Room.{Room};
ghost use Rattle.tb_gates.specs.Links.{LinkState};
ghost use Rattle.tb_wire.specs.Cuts.{Cuts, HoldsNone};
ghost use Rattle.tb_session.specs.Codes.{HasRange, Made, code_of, spelled_all};
ghost use Rattle.tb_session.specs.Openings.{opening_code};
ghost use Rattle.tb_session.specs.Rooms.{room_means};
ghost use Rattle.tb_session.specs.Crashes.{HasSeen, LeavesSeen};
ghost use Rattle.tb_session.specs.Turned.{Calls};
ghost use Rattle.tb_session.specs.Groups.{CallsTogether, Replied};
ghost use Rattle.tb_message.specs.declared.key.Key.{Key};
ghost use Rattle.tb_message.specs.declared.message.Message.{Message};
ghost use Rattle.tb_units.specs.declared.moment.Moment.{Moment};
ghost use Rattle.tb_session.specs.Serve.{AreCutInto, ServesAll, some_met};
ghost use Rattle.tb_session.specs.Session.{AnswersAll, IsSession, Session, requests_in};

use tb_disk::Disk;
use tb_gates::{Clock, Gate};

/// No two calls have one code, and no two histories one list of records, where their entries are in range, as those of
/// a legal history are. No two openings of a disk have one code, whatever happened to it. It does nothing.
pub fn one_code()
    ensures calls { (one other : Called) → HasRange one.outcome → HasRange other.outcome → code_of one ≡ code_of other
        → one ≡ other }
    ensures histories { (one other : List Entry) → All IsInRange one → All IsInRange other
        → spelled_all one ≡ spelled_all other
        → one ≡ other }
    ensures openings { (recovered recovered' : ℕ) (one other : Option Past)
        → opening_code recovered one ≡ opening_code recovered' other
        → (recovered ≡ recovered') × (one ≡ other) }
{}

/// The requests that a link served are cut from the bytes read, one after the other; and where it ended without a last
/// request, no whole one is left. Unless memory ran out, or a read or a write of the link failed, all requests that
/// came were answered: what was due is written whole, and the link ended where no whole request is left, or at one
/// whose reply closes. It does nothing.
pub fn all_served()
    ensures cut { (fixed : List ℕ) (turns : ℕ) (waiting : List ℕ) (old new : LinkState) (session : Session)
        → IsSession fixed turns waiting old new session
        → Cuts (requests_in (session.exchanges ++ session.last)) (waiting ++ session.read) session.rest }
    ensures left { (fixed : List ℕ) (turns : ℕ) (waiting : List ℕ) (old new : LinkState) (session : Session)
        → IsSession fixed turns waiting old new session → session.last ≡ [] → HoldsNone session.rest }
    ensures answered { (fixed : List ℕ) (turns : ℕ) (waiting : List ℕ) (old new : LinkState) (session : Session)
        → IsSession fixed turns waiting old new session
        → (session.ended ≡ end.OutOfMemory)
        ⊎ (Rose old.source.faults new.source.faults
        ⊎ (Rose old.sink.faults new.sink.faults ⊎ AnswersAll turns session)) }
{}

/// A crash at the take of a turn leaves a history that begins with what the pass had seen, and so does each crash while
/// a call, or a group of bids, is made in that turn. It does nothing.
pub fn crashes_keep_what_was_seen<D: Disk, C: Clock>()
    // By what `take` tells of the room, and what `Desk::entries` tells of each desk.
    ensures take { (before after : View) (room : Room D C) → IsTaken (room_means D.disk C.clock) before after room
        → LeavesEither (D.disk room.desk.disk) room.desk.host.history room.desk.doubt
        → LeavesSeen before.seen (D.disk room.desk.disk) }
    ensures turn { (before after : View) (old new : Room D C) (called : Called) (said : Answer)
        → IsTaken (room_means D.disk C.clock) before after old
        → Calls D.disk C.clock old new called said
        → CrashesLeave (HasSeen before.seen) (D.disk old.desk.disk) (D.disk new.desk.disk) }
    // So it is of bids that share the turn.
    ensures group { (before after : View) (old new : Room D C) (key : Key) (messages : List (ℕ × Message))
        (moment : Moment) (replied : List Replied)
        → IsTaken (room_means D.disk C.clock) before after old
        → CallsTogether D.disk C.clock old new key messages moment replied
        → CrashesLeave (HasSeen before.seen) (D.disk old.desk.disk) (D.disk new.desk.disk) }
{}

/// In a run no more turns are answered with a disk fault than the desk's count of faults rose, unless it has reached
/// its last value, however the calls of each gate are cut into turns. It does nothing.
pub fn one_fault_one_turn<D: Disk, C: Clock, G: Gate>()
    ensures few { (room after : Room D C) (olds news : List G) (served accepted : ℕ) (failed : Bool)
        (turns : List (List Made))
        → (run : ServesAll D.disk C.clock G.gate G.Conn.source G.Conn.sink room olds after news served accepted failed)
        → AreCutInto run.runs turns
        → (count_by some_met turns ≤ after.desk.faults - room.desk.faults) ⊎ (last_count ≤ after.desk.faults) }
{}
