//! Names, compared.
ghost use Rattle.std.specs.Prelude.{◌≡◌};
ghost use Rattle.tb_history.specs.Entries.{is_same};
ghost use Rattle.tb_history.specs.Entries as entries;
ghost use Rattle.tb_history.specs.Roster.{is_named};

use crate::keys::ByName;
use tb_index::Named;
use tb_units::Ident;

/// Names of auctions, in the order in which they were published or settled.
pub type Names = Named<Ident, ByName>;

/// Whether two names are one.
pub fn is_same(one: &Ident, other: &Ident) -> bool
    ensures { result ≡ is_same one.now other.now }
{
    one.bytes() == other.bytes()
}

/// Whether the name is the operator's.
#[tactic(auto, unfolding(tb_history::specs::Entries::operator))]
pub fn is_operator(name: &Ident) -> bool
    ensures { result ≡ is_same name.now entries.operator }
{
    name.bytes() == b"operator".as_slice()
}

/// Whether the auction is among those named.
pub fn has_name(names: &Names, auction: &Ident) -> bool
    ensures { result ≡ is_named names.now.list auction.now }
{
    names.has(auction)
}
