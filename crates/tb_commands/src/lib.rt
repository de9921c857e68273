//! The commands but `serve`: each as a function over the objects that it is handed, and how it ends.
#![tactic(auto)]

mod answer;
mod award_command;
mod check_command;
mod command_endings;
mod ending;
mod follow_send_command;
mod follow_take_command;
mod import_command;
mod laws;
mod migrate_command;
mod notice;
mod number_line;
mod parcel_input;
mod register_command;
mod reply;
mod report_command;
mod row_lines;
mod run_command;
mod script_line;
mod sender;
mod table_input;
mod trial_command;

pub use award_command::award;
pub use check_command::check;
pub use command_endings::{
    CheckEnding, DiskEnding, MigrateEnding, PrintEnding, RegisterEnding, SendEnding, ServeEnding,
    TakeEnding, TextEnding,
};
pub use ending::Ending;
pub use follow_send_command::follow_send;
pub use follow_take_command::follow_take;
pub use import_command::import;
pub use laws::{
    groups_are_sent, one_book_or_bad_line, one_run, one_script_or_bad_line, one_text,
    parcels_or_bad_parcel,
};
pub use migrate_command::migrate;
pub use notice::Notice;
pub use number_line::tell_count;
pub use register_command::register;
pub use report_command::{Inquiry, report};
pub use run_command::run;
pub use sender::Sender;
pub use trial_command::trial;
