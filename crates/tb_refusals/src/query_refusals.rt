//! The first refusal of a query whose cause holds, by what it looks at.
ghost use Rattle.std.specs.Prelude.{◌≡◌, not, is_none, [], ◌∷◌};
ghost use Rattle.tb_terms.specs.declared.refusal.Refusal.TheVariants as refusal;
ghost use Rattle.tb_terms.specs.Rows.{refusal_in};
ghost use Rattle.tb_history.specs.Answer.{auction_rows};
ghost use Rattle.tb_history.specs.Answer as answer;
ghost use Rattle.tb_tables.specs.Auctions.{announcement_in};

use tb_message::Query;
use tb_tables::is_operator;
use tb_terms::{Refusal, Terms};
use tb_units::Ident;

/// Whether a query of this kind is told to the caller.
pub fn may_ask(caller: &Ident, query: &Query) -> bool
    ensures { result ≡ answer.may_ask caller.now query.now }
{
    match query {
        Query::Terms(_) | Query::Results(_) => true,
        Query::Awards(_) | Query::Bids(_) | Query::Holdings | Query::Funds => !is_operator(caller),
        Query::Redemption(_) => is_operator(caller),
    }
}

/// Of a query on an auction, by its terms, whether the query shows results, and whether they are published.
pub fn auction_refusal(
    terms: Option<Terms>,
    shows_results: bool,
    published: bool,
) -> Option<Refusal>
    ensures { result ≡ refusal_in (auction_rows (announcement_in terms) shows_results published) }
{
    if terms.is_none() {
        return Some(Refusal::UnknownAuction);
    }
    if shows_results && !published {
        return Some(Refusal::NotPublished);
    }
    None
}

/// Of a query on the redemption of a bill, by its terms and whether it is redeemed.
pub fn redemption_refusal(terms: Option<Terms>, redeemed: bool) -> Option<Refusal>
    ensures { result ≡ refusal_in
        ((refusal.UnknownSecurity, is_none (announcement_in terms)) ∷ (refusal.NotRedeemed, not redeemed) ∷ []) }
{
    if terms.is_none() {
        return Some(Refusal::UnknownSecurity);
    }
    if !redeemed {
        return Some(Refusal::NotRedeemed);
    }
    None
}
