//! The book of one auction under its name, and the names by which books are found.
use tb_book::Book;
use tb_index::{KeyOf, Named};
use tb_units::Ident;

/// The book of an auction.
#[derive(Drop)]
pub struct NamedBook {
    pub auction: Ident,
    pub book: Book,
}

/// By a name itself.
pub struct ByName;

impl KeyOf<Ident> for ByName {
    type Key = Ident;

    ghost key_of = { λ name. name };

    fn key_of(name: &Ident) -> Ident {
        *name
    }
}

/// The names of auctions, in the order in which their books were opened.
pub type Names = Named<Ident, ByName>;
