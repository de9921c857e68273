//! What a call is answered.
ghost use Rattle.std.specs.Prelude.{◌≡◌};
ghost use Rattle.tb_message.specs.declared.verdict.Verdict.TheVariants as verdict;
ghost use Rattle.tb_session.specs.declared.answer.Answer.TheVariants as answer;

use tb_history::Reading;
use tb_message::Verdict;
use tb_terms::Refusal;

/// What a call is answered.
#[derive(Debug, Drop)]
pub enum Answer {
    Verdict(Verdict),
    Reading(Reading),
    /// The disk failed: the message may or may not have been accepted. Sent again, it is answered by what stands.
    DiskFault,
    /// There was no memory for it. The desk is as it was, its disk with it.
    OutOfMemory,
}

impl Answer {
    pub(crate) fn refused(refusal: Refusal) -> Answer
        ensures { result ≡ answer.Verdict (verdict.Refused refusal) }
    {
        Answer::Verdict(Verdict::Refused(refusal))
    }
}

/// What a group of bids is answered.
#[derive(Clone, Copy, Debug, PartialEq, Eq)]
pub enum GroupAnswer {
    /// Each bid has its verdict.
    Verdicts,
    /// The disk failed: all the bids that would have been accepted may have been, or none of them.
    DiskFault,
    /// There was no memory for them. The desk is as it was, its disk with it.
    OutOfMemory,
}
