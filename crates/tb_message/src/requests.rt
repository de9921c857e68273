//! Requests, read from JSON.
ghost use Rattle.std.specs.Prelude.{◌≡◌, Some, IfOk, IfErr};
ghost use Rattle.tb_message.specs.Forms.{whole};
ghost use Rattle.tb_message.specs.Kinds.{kind_of_text};
ghost use Rattle.tb_message.specs.Queries.{query_of_text, query_kind_of, query_parts_of};
ghost use Rattle.tb_message.specs.Messages.{kind_of, parts_of};
ghost use Rattle.tb_message.specs.Spelling.{IsNumbered};
ghost use Rattle.tb_message.specs.Requests.{result_map, body_in, message_in, object_in, request_in, query};
ghost use Rattle.tb_message.specs.Requests.{asked_by, IsRequestInRange};
ghost use Rattle.tb_message.specs.Requests as asked;
ghost use Rattle.tb_message.specs.declared.kind.Kind.TheVariants as kinds;

use crate::kind::Kind;
use crate::members;
use crate::message::Message;
use crate::object::Object;
use crate::query::{Query, QueryKind, Request};
use tb_terms::{Announcement, Field};

#[tactic(auto, unfolding(crate::specs::Kinds::kind_of_text))]
fn kind_of_name(text: &str) -> Option<Kind>
    ensures { result ≡ kind_of_text text.now }
{
    match text {
        "register" => Some(Kind::Register),
        "enrol" => Some(Kind::Enrol),
        "holiday" => Some(Kind::Holiday),
        "announce" => Some(Kind::Announce),
        "bid" => Some(Kind::Bid),
        "noncompetitive" => Some(Kind::Noncompetitive),
        "cancel" => Some(Kind::Cancel),
        "position" => Some(Kind::Position),
        "publish" => Some(Kind::Publish),
        "settle" => Some(Kind::Settle),
        "transfer" => Some(Kind::Transfer),
        "pledge" => Some(Kind::Pledge),
        "release" => Some(Kind::Release),
        "redeem" => Some(Kind::Redeem),
        "addon" => Some(Kind::AddOn),
        "deposit" => Some(Kind::Deposit),
        "withdraw" => Some(Kind::Withdraw),
        "sell" => Some(Kind::Sell),
        "buy" => Some(Kind::Buy),
        "retract" => Some(Kind::Retract),
        _ => None,
    }
}

#[tactic(auto, unfolding(crate::specs::Queries::query_of_text))]
fn query_kind_of_name(text: &str) -> Option<QueryKind>
    ensures { result ≡ query_of_text text.now }
{
    match text {
        "terms" => Some(QueryKind::Terms),
        "results" => Some(QueryKind::Results),
        "awards" => Some(QueryKind::Awards),
        "bids" => Some(QueryKind::Bids),
        "holdings" => Some(QueryKind::Holdings),
        "redemption" => Some(QueryKind::Redemption),
        "funds" => Some(QueryKind::Funds),
        _ => None,
    }
}

fn register<O: Object>(object: &O) -> Result<Message, Field>
    ensures { result_map (λ m. (kind_of m, parts_of m)) result ≡ body_in (O.said object.now) kinds.Register }
{
    Ok(Message::Register {
        submitter: members::name(object, Field::Submitter)?,
        key: members::name(object, Field::Key)?,
    })
}

fn enrol<O: Object>(object: &O) -> Result<Message, Field>
    ensures { result_map (λ m. (kind_of m, parts_of m)) result ≡ body_in (O.said object.now) kinds.Enrol }
{
    Ok(Message::Enrol {
        bidder: members::name(object, Field::Bidder)?,
        submitter: members::name(object, Field::Submitter)?,
    })
}

fn holiday<O: Object>(object: &O) -> Result<Message, Field>
    ensures { result_map (λ m. (kind_of m, parts_of m)) result ≡ body_in (O.said object.now) kinds.Holiday }
{
    Ok(Message::Holiday {
        day: members::day(object, Field::Day)?,
    })
}

fn announce<O: Object>(object: &O) -> Result<Message, Field>
    ensures { result_map (λ m. (kind_of m, parts_of m)) result ≡ body_in (O.said object.now) kinds.Announce }
{
    Ok(Message::Announce {
        terms: Announcement {
            auction: members::name(object, Field::Auction)?,
            cusip: members::cusip(object, Field::Cusip)?,
            offering: members::amount(object, Field::Offering)?,
            minimum: members::amount(object, Field::Minimum)?,
            nc_ceiling: members::amount(object, Field::Ceiling)?,
            competitive_floor: members::amount(object, Field::Floor)?,
            nlp_threshold: members::amount(object, Field::Threshold)?,
            auction_date: members::day(object, Field::Date)?,
            nc_close: members::minute(object, Field::NcClose)?,
            c_close: members::minute(object, Field::CClose)?,
            issue: members::day(object, Field::Issue)?,
            maturity: members::day(object, Field::Maturity)?,
        },
    })
}

fn bid<O: Object>(object: &O) -> Result<Message, Field>
    ensures { result_map (λ m. (kind_of m, parts_of m)) result ≡ body_in (O.said object.now) kinds.Bid }
{
    Ok(Message::Bid {
        auction: members::name(object, Field::Auction)?,
        bidder: members::name(object, Field::Bidder)?,
        rate: Some(members::rate(object, Field::Rate)?),
        amount: members::amount(object, Field::Amount)?,
    })
}

fn noncompetitive<O: Object>(object: &O) -> Result<Message, Field>
    ensures { result_map (λ m. (kind_of m, parts_of m)) result ≡ body_in (O.said object.now) kinds.Noncompetitive }
{
    Ok(Message::Bid {
        auction: members::name(object, Field::Auction)?,
        bidder: members::name(object, Field::Bidder)?,
        rate: None,
        amount: members::amount(object, Field::Amount)?,
    })
}

fn cancel<O: Object>(object: &O) -> Result<Message, Field>
    ensures { result_map (λ m. (kind_of m, parts_of m)) result ≡ body_in (O.said object.now) kinds.Cancel }
{
    Ok(Message::Cancel {
        auction: members::name(object, Field::Auction)?,
        bid: members::number(object, Field::Bid)?,
    })
}

fn position<O: Object>(object: &O) -> Result<Message, Field>
    ensures { result_map (λ m. (kind_of m, parts_of m)) result ≡ body_in (O.said object.now) kinds.Position }
{
    Ok(Message::Position {
        auction: members::name(object, Field::Auction)?,
        bidder: members::name(object, Field::Bidder)?,
        position: members::position(object, Field::Position)?,
    })
}

fn publish<O: Object>(object: &O) -> Result<Message, Field>
    ensures { result_map (λ m. (kind_of m, parts_of m)) result ≡ body_in (O.said object.now) kinds.Publish }
{
    Ok(Message::Publish {
        auction: members::name(object, Field::Auction)?,
    })
}

fn settle<O: Object>(object: &O) -> Result<Message, Field>
    ensures { result_map (λ m. (kind_of m, parts_of m)) result ≡ body_in (O.said object.now) kinds.Settle }
{
    Ok(Message::Settle {
        auction: members::name(object, Field::Auction)?,
    })
}

fn transfer<O: Object>(object: &O) -> Result<Message, Field>
    ensures { result_map (λ m. (kind_of m, parts_of m)) result ≡ body_in (O.said object.now) kinds.Transfer }
{
    Ok(Message::Transfer {
        cusip: members::cusip(object, Field::Cusip)?,
        to: members::name(object, Field::To)?,
        amount: members::amount(object, Field::Amount)?,
    })
}

fn pledge<O: Object>(object: &O) -> Result<Message, Field>
    ensures { result_map (λ m. (kind_of m, parts_of m)) result ≡ body_in (O.said object.now) kinds.Pledge }
{
    Ok(Message::Pledge {
        cusip: members::cusip(object, Field::Cusip)?,
        to: members::name(object, Field::To)?,
        amount: members::amount(object, Field::Amount)?,
    })
}

fn release<O: Object>(object: &O) -> Result<Message, Field>
    ensures { result_map (λ m. (kind_of m, parts_of m)) result ≡ body_in (O.said object.now) kinds.Release }
{
    Ok(Message::Release {
        holder: members::name(object, Field::Holder)?,
        pledge: members::number(object, Field::Pledge)?,
        amount: members::amount(object, Field::Amount)?,
    })
}

fn redeem<O: Object>(object: &O) -> Result<Message, Field>
    ensures { result_map (λ m. (kind_of m, parts_of m)) result ≡ body_in (O.said object.now) kinds.Redeem }
{
    Ok(Message::Redeem {
        cusip: members::cusip(object, Field::Cusip)?,
    })
}

fn add_on<O: Object>(object: &O) -> Result<Message, Field>
    ensures { result_map (λ m. (kind_of m, parts_of m)) result ≡ body_in (O.said object.now) kinds.AddOn }
{
    Ok(Message::AddOn {
        auction: members::name(object, Field::Auction)?,
        holder: members::name(object, Field::Holder)?,
        amount: members::amount(object, Field::Amount)?,
    })
}

fn deposit<O: Object>(object: &O) -> Result<Message, Field>
    ensures { result_map (λ m. (kind_of m, parts_of m)) result ≡ body_in (O.said object.now) kinds.Deposit }
{
    Ok(Message::Deposit {
        participant: members::name(object, Field::Participant)?,
        cents: members::money(object, Field::Cents)?,
    })
}

fn withdraw<O: Object>(object: &O) -> Result<Message, Field>
    ensures { result_map (λ m. (kind_of m, parts_of m)) result ≡ body_in (O.said object.now) kinds.Withdraw }
{
    Ok(Message::Withdraw {
        participant: members::name(object, Field::Participant)?,
        cents: members::money(object, Field::Cents)?,
    })
}

fn sell<O: Object>(object: &O) -> Result<Message, Field>
    ensures { result_map (λ m. (kind_of m, parts_of m)) result ≡ body_in (O.said object.now) kinds.Sell }
{
    Ok(Message::Sell {
        cusip: members::cusip(object, Field::Cusip)?,
        to: members::name(object, Field::To)?,
        amount: members::amount(object, Field::Amount)?,
        price: members::money(object, Field::Cents)?,
    })
}

fn buy<O: Object>(object: &O) -> Result<Message, Field>
    ensures { result_map (λ m. (kind_of m, parts_of m)) result ≡ body_in (O.said object.now) kinds.Buy }
{
    Ok(Message::Buy {
        seller: members::name(object, Field::Seller)?,
        offer: members::number(object, Field::Offer)?,
    })
}

fn retract<O: Object>(object: &O) -> Result<Message, Field>
    ensures { result_map (λ m. (kind_of m, parts_of m)) result ≡ body_in (O.said object.now) kinds.Retract }
{
    Ok(Message::Retract {
        offer: members::number(object, Field::Offer)?,
    })
}

fn message_of<O: Object>(kind: Kind, object: &O) -> Result<Message, Field>
    ensures { result_map (λ m. (kind_of m, parts_of m)) result ≡ body_in (O.said object.now) kind }
{
    match kind {
        Kind::Register => register(object),
        Kind::Enrol => enrol(object),
        Kind::Holiday => holiday(object),
        Kind::Announce => announce(object),
        Kind::Bid => bid(object),
        Kind::Noncompetitive => noncompetitive(object),
        Kind::Cancel => cancel(object),
        Kind::Position => position(object),
        Kind::Publish => publish(object),
        Kind::Settle => settle(object),
        Kind::Transfer => transfer(object),
        Kind::Pledge => pledge(object),
        Kind::Release => release(object),
        Kind::Redeem => redeem(object),
        Kind::AddOn => add_on(object),
        Kind::Deposit => deposit(object),
        Kind::Withdraw => withdraw(object),
        Kind::Sell => sell(object),
        Kind::Buy => buy(object),
        Kind::Retract => retract(object),
    }
}

fn query_of<O: Object>(kind: QueryKind, object: &O) -> Result<Query, Field>
    ensures { result_map (λ q. query (query_kind_of q) (query_parts_of q)) result
        ≡ object_in (O.said object.now) (Some kind) }
{
    match kind {
        QueryKind::Terms => Ok(Query::Terms(members::name(object, Field::Auction)?)),
        QueryKind::Results => Ok(Query::Results(members::name(object, Field::Auction)?)),
        QueryKind::Awards => Ok(Query::Awards(members::name(object, Field::Auction)?)),
        QueryKind::Bids => Ok(Query::Bids(members::name(object, Field::Auction)?)),
        QueryKind::Holdings => Ok(Query::Holdings),
        QueryKind::Redemption => Ok(Query::Redemption(members::cusip(object, Field::Cusip)?)),
        QueryKind::Funds => Ok(Query::Funds),
    }
}

fn message_kind_in<O: Object>(object: &O) -> Option<Kind>
    ensures { result ≡ asked.message_kind_in (O.said object.now) }
{
    object.text(Field::Kind).and_then(kind_of_name)
}

fn query_kind_in<O: Object>(object: &O) -> Option<QueryKind>
    ensures { result ≡ asked.query_kind_in (O.said object.now) }
{
    object.text(Field::Kind).and_then(query_kind_of_name)
}

fn message<O: Object>(object: &O) -> Result<(u64, Message), Field>
    ensures asked { result_map (λ x. (whole x.0, kind_of x.1, parts_of x.1)) result ≡ message_in (O.said object.now) }
    ensures in_range { IfOk result (λ x. IsNumbered x.0 x.1) }
{
    let number = members::number(object, Field::Number)?;
    let Some(kind) = message_kind_in(object) else {
        return Err(Field::Kind);
    };
    let message = message_of(kind, object)?;
    Ok((number, message))
}

/// The request that an object is, or the first member that fails.
pub(crate) fn request<O: Object>(object: &O) -> Result<Request, Field>
    ensures asked { result_map asked_by result ≡ request_in (O.said object.now) }
    ensures in_range { IfOk result IsRequestInRange }
{
    if !object.is_object() {
        return Err(Field::Body);
    }
    match query_kind_in(object) {
        Some(kind) => Ok(Request::Query(query_of(kind, object)?)),
        None => {
            let (number, message) = message(object)?;
            Ok(Request::Message { number, message })
        }
    }
}
