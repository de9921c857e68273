//! The kinds of messages.
ghost use Rattle.std.specs.Prelude.{◌≡◌};
ghost use Rattle.tb_message.specs.Kinds.{tag_of, kind_of_tag};

/// What kind of message it is. Bids with a rate and without one are two kinds.
#[derive(Clone, Copy, Debug, PartialEq, Eq)]
pub enum Kind {
    Register,
    Enrol,
    Holiday,
    Announce,
    Bid,
    Noncompetitive,
    Cancel,
    Position,
    Publish,
    Settle,
    Transfer,
    Pledge,
    Release,
    Redeem,
    AddOn,
    Deposit,
    Withdraw,
    Sell,
    Buy,
    Retract,
}

impl Kind {
    /// The byte that stands for the kind in a record.
    pub(crate) fn tag(self) -> u8
        ensures { result ≡ tag_of self }
    {
        match self {
            Kind::Register => 1,
            Kind::Enrol => 2,
            Kind::Holiday => 3,
            Kind::Announce => 4,
            Kind::Bid => 5,
            Kind::Noncompetitive => 6,
            Kind::Cancel => 7,
            Kind::Position => 8,
            Kind::Publish => 9,
            Kind::Settle => 10,
            Kind::Transfer => 11,
            Kind::Pledge => 12,
            Kind::Release => 13,
            Kind::Redeem => 14,
            Kind::AddOn => 15,
            Kind::Deposit => 16,
            Kind::Withdraw => 17,
            Kind::Sell => 18,
            Kind::Buy => 19,
            Kind::Retract => 20,
        }
    }

    /// The kind that a byte stands for.
    pub(crate) fn of_tag(tag: u8) -> Option<Kind>
        ensures { result ≡ kind_of_tag tag }
    {
        match tag {
            1 => Some(Kind::Register),
            2 => Some(Kind::Enrol),
            3 => Some(Kind::Holiday),
            4 => Some(Kind::Announce),
            5 => Some(Kind::Bid),
            6 => Some(Kind::Noncompetitive),
            7 => Some(Kind::Cancel),
            8 => Some(Kind::Position),
            9 => Some(Kind::Publish),
            10 => Some(Kind::Settle),
            11 => Some(Kind::Transfer),
            12 => Some(Kind::Pledge),
            13 => Some(Kind::Release),
            14 => Some(Kind::Redeem),
            15 => Some(Kind::AddOn),
            16 => Some(Kind::Deposit),
            17 => Some(Kind::Withdraw),
            18 => Some(Kind::Sell),
            19 => Some(Kind::Buy),
            20 => Some(Kind::Retract),
            _ => None,
        }
    }
}
