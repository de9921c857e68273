//! Key words, by which a caller is known.
ghost use Rattle.std.specs.Prelude.{◌≡◌};
ghost use Rattle.tb_message.specs.Keys.{key_of};

use tb_units::Ident;

/// The key word of a caller: a submitter's key, or the operator's name behind `op:`.
#[derive(Clone, Copy, Debug, PartialEq, Eq)]
pub enum Key {
    Submitter(Ident),
    Operator(Ident),
}

impl Key {
    /// Reads a name as a submitter's key, and `op:` and a name as the operator's. Everything else is `None`.
    pub fn read(text: &str) -> Option<Key>
        ensures { result ≡ key_of text.now }
    {
        match text.as_bytes().strip_prefix(b"op:".as_slice()) {
            Some(name) => Ident::of_bytes(name).map(Key::Operator),
            None => Ident::of_bytes(text.as_bytes()).map(Key::Submitter),
        }
    }
}
