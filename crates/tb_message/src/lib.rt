//! Messages and entries: the kinds with their members, the records of entries, and requests read from JSON.
#![tactic(auto)]

mod fields;
mod key;
mod kind;
mod laws;
mod members;
mod message;
mod object;
mod plain;
mod putting;
mod query;
mod reading;
mod record;
mod requests;
mod taking;
mod verdict;
mod version;
mod writing;

pub use key::Key;
pub use kind::Kind;
pub use laws::{one_list, one_request, one_spelling};
pub use message::{Entry, Message};
pub use query::{Query, QueryKind, ReadFault, Request};
pub use reading::{RequestReader, read_request};
pub use record::Record;
pub use verdict::{Line, Verdict, verdict_line};
pub use version::Version;
