//! Sessions: links are served from a room, a desk and a clock that are taken in turns.
#![tactic(auto)]

mod answer;
mod asking;
mod called;
mod calls;
mod end;
mod groups;
mod hear;
mod inbox;
mod laws;
mod links;
mod perform;
mod receive;
mod reply;
mod room;
mod row;
mod serve;
mod session;
mod turn;
mod worker;
mod write;

pub use answer::{Answer, GroupAnswer};
pub use called::{Ask, Called, Outcome};
pub use end::End;
pub use laws::{all_served, crashes_keep_what_was_seen, one_code, one_fault_one_turn};
pub use links::work;
pub use room::Room;
pub use serve::{Ended, serve_gates};
pub use session::{MOST_TURNS, serve_link};
pub use worker::Worker;
