//! One call of the room in a turn of its own.
ghost use Rattle.std.specs.Prelude.{◌≡◌};

use crate::answer::Answer;
use crate::called::Called;
use tb_lock::Told;

/// The call of a turn and its answer, and how many entries stood before it.
#[derive(Drop)]
pub(crate) struct Turn {
    pub called: Called,
    pub answer: Answer,
    pub before: u64,
}

impl Told for Turn {
    ghost use Rattle.tb_session.specs.Turned.{told_of};

    ghost calls = { told_of };
}
