//! The words of the command line, the commands, and the top call that does what the words ask for, over a
//! source and a sink of bytes.
#![tactic(auto)]

mod answer;
mod basis;
mod check;
mod check_input;
mod cut;
mod drill;
mod fold;
mod identity;
mod input;
mod laws;
mod meet;
mod output;
mod plain;
mod refusal;
mod run;
mod status;
mod words;

pub use input::{InputFault, read_input};
pub use laws::{lists_are_commands, one_text};
pub use output::write_text;
pub use refusal::Refusal;
pub use run::run_calm;
pub use status::{Status, status_text};
pub use words::{Command, WordsFault, matches_of, number_in};
