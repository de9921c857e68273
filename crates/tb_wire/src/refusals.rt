//! The codes of refusals.
ghost use Rattle.std.specs.Prelude.{◌≡◌, true};
ghost use Rattle.tb_wire.specs.Codes.{code_of, is_told};

use tb_terms::Refusal;

/// The code of the reply that tells a refusal (RFC 9110, section 15.5).
pub fn refusal_code(refusal: &Refusal) -> u16
    ensures code { result ≡ code_of refusal.now }
    ensures told { is_told result ≡ true }
{
    match refusal {
        Refusal::UnknownKey => 401,
        Refusal::NotPermitted => 403,
        Refusal::NumberReused => 409,
        Refusal::BadJson | Refusal::BadShape(_) => 400,
        Refusal::BadMethod => 405,
        Refusal::NoRoute
        | Refusal::UnknownAuction
        | Refusal::UnknownBidder
        | Refusal::UnknownBid
        | Refusal::NotPublished
        | Refusal::UnknownSecurity
        | Refusal::UnknownParticipant
        | Refusal::UnknownPledge
        | Refusal::NotRedeemed
        | Refusal::UnknownOffer => 404,
        _ => 422,
    }
}
