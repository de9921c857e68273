//! The commands of the host.
use tb_message::{Key, Query};
use tb_terms::Cusip;
use tb_units::Ident;

/// A command, with what its words say. The key word of the operator that is named is `op:` and the name.
#[derive(Clone, Copy, Debug, PartialEq, Eq)]
pub enum Command {
    /// Prints where the auction of a text book stops, and where it is asked for in full what each bidder gets.
    Award {
        full: bool,
    },
    /// Acts on a script.
    Run {
        operator: Ident,
    },
    /// Serves links on a port, by so many workers of so many links each.
    Serve {
        operator: Ident,
        port: u16,
        workers: u32,
        links: u64,
    },
    /// Sends the rows of a table of bids in the name of a key.
    Import {
        operator: Ident,
        key: Key,
    },
    /// Answers a query in the name of a key, as a table where `csv` asks for one.
    Report {
        operator: Ident,
        key: Key,
        query: Query,
        csv: bool,
    },
    /// Migrates the journal of the first version into the spare.
    Migrate,
    /// Tells what remains in the journal behind its last group.
    Check,
    /// Sends a standby the parcels of all entries from this place on.
    FollowSend {
        from: u64,
    },
    /// Takes parcels, as a standby.
    FollowTake,
    /// Puts the published auctions into the register, and prints the rows of a bill where one is named. A CUSIP is nine
    /// digits and capital letters.
    Register {
        cusip: Option<Cusip>,
    },
    /// Runs an auction of so many bids that follow from a seed.
    Trial {
        seed: u64,
        count: u64,
    },
}

/// Why words are no command.
#[derive(Clone, Copy, Debug, PartialEq, Eq)]
pub enum WordsFault {
    /// They are outside the command set.
    Usage,
    /// There was no memory to read them.
    OutOfMemory,
}
