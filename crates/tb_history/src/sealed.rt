//! Replies are sealed: until the results of an auction are published, a submitter's replies on it depend on its own
//! entries and the operator's alone.
ghost use Rattle.std.specs.Prelude.{◌≡◌, ℕ, List, Some, true, false, is_some};
ghost use Rattle.tb_units.specs.declared.moment.Moment.{Moment};
ghost use Rattle.tb_message.specs.declared.message.Entry.{Entry};
ghost use Rattle.tb_message.specs.declared.message.Message.{Message};
ghost use Rattle.tb_message.specs.declared.key.Key.{Key};
ghost use Rattle.tb_message.specs.declared.query.Query.{Query};
ghost use Rattle.tb_message.specs.declared.query.Query.TheVariants as query;
ghost use Rattle.tb_history.specs.Roster.{registrations, announcements, announcement_of, is_published};
ghost use Rattle.tb_history.specs.LiveBids.{bids, cancels};
ghost use Rattle.tb_history.specs.Verdict.{verdict_on};
ghost use Rattle.tb_history.specs.Legal.{IsLegal, running};
ghost use Rattle.tb_history.specs.OwnPart.{own_part, depends_on_others};
ghost use Rattle.tb_history.specs.Answer.{caller_of, verdict_for, refusal_for, query_refusal};
ghost use Rattle.tb_history.specs.Readings.{bid_lines};

/// Holds of every legal history, submitter and moment. It does nothing.
pub fn replies_are_sealed()
    // The verdict on a message that doesn't depend on others is that on the sender's own part of the history. So
    // neither repeats nor used numbers nor quotas tell of others.
    ensures verdicts { (history : List Entry) (submitter : List ℕ) (number : ℕ) (moment : Moment) (message : Message)
        → IsLegal history
        → depends_on_others message ≡ false
        → verdict_on history submitter number moment message
        ≡ verdict_on (own_part submitter history) submitter number moment message }
    // Two histories with one own part give one verdict.
    ensures two_worlds { (one other : List Entry) (submitter : List ℕ) (number : ℕ) (moment : Moment)
        (message : Message)
        → IsLegal one
        → IsLegal other
        → own_part submitter one ≡ own_part submitter other
        → depends_on_others message ≡ false
        → verdict_on one submitter number moment message ≡ verdict_on other submitter number moment message }
    // A key is the same caller's on every own part.
    ensures keys { (history : List Entry) (name submitter : List ℕ) (key : Key)
        → IsLegal history
        → caller_of (registrations (own_part submitter history)) name key
        ≡ caller_of (registrations history) name key }
    // So the verdict by the sender's key is the same, wherever the running moments agree.
    ensures by_key { (history : List Entry) (name submitter : List ℕ) (key : Key) (number : ℕ) (moment other : Moment)
        (message : Message)
        → IsLegal history
        → depends_on_others message ≡ false
        → caller_of (registrations history) name key ≡ Some submitter
        → running history moment ≡ running (own_part submitter history) other
        → verdict_for history (caller_of (registrations history) name key) number moment message
        ≡ verdict_for (own_part submitter history) (caller_of (registrations (own_part submitter history)) name key)
        number other message }
    // A query is refused alike, and so it is by the sender's key.
    ensures queries { (history : List Entry) (submitter : List ℕ) (query : Query)
        → IsLegal history
        → query_refusal history submitter query ≡ query_refusal (own_part submitter history) submitter query }
    ensures queries_by_key { (history : List Entry) (name submitter : List ℕ) (key : Key) (query : Query)
        → IsLegal history
        → caller_of (registrations history) name key ≡ Some submitter
        → refusal_for history (caller_of (registrations history) name key) query
        ≡ refusal_for (own_part submitter history) (caller_of (registrations (own_part submitter history)) name key)
        query }
    // Results and awards are refused while they aren't published.
    ensures unpublished { (history : List Entry) (submitter auction : List ℕ)
        → is_published history auction ≡ false
        → (is_some (query_refusal history submitter (query.Results auction)) ≡ true)
        × (is_some (query_refusal history submitter (query.Awards auction)) ≡ true) }
    // The terms that are read are the same, and so are the submitter's bids, live and cancelled.
    ensures terms { (history : List Entry) (submitter auction : List ℕ)
        → IsLegal history
        → announcement_of (announcements history) auction
        ≡ announcement_of (announcements (own_part submitter history)) auction }
    ensures bids { (history : List Entry) (submitter auction : List ℕ)
        → bid_lines (bids history) (cancels history) submitter auction
        ≡ bid_lines (bids (own_part submitter history)) (cancels (own_part submitter history)) submitter auction }
{}
