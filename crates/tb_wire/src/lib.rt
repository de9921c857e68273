//! Requests, cut from the bytes of a link as RFC 9112 frames them, and the heads of replies.
#![tactic(auto)]

mod bodies;
mod cutting;
mod fronts;
mod headers;
mod keys;
mod laws;
mod paths;
mod phrases;
mod refusals;
mod replies;
mod targets;

pub use cutting::{Cutting, HttpRequest, Target};
pub use fronts::next_request;
pub use laws::{cuts_stay, one_cutting, one_front, stays, uses, waits};
pub use paths::Routes;
pub use refusals::refusal_code;
pub use replies::{
    Allow, Head, Reply, bad_front_reply, disk_fault_reply, no_memory_reply, reply_head,
};
