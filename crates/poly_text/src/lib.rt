//! Polynomial texts: what a text of the grammar stands for, and which fault another text has.
#![tactic(auto)]

mod fault;
mod key;
pub mod laws;
mod limits;
mod numbers;
mod parse;
mod reader;
mod running_sum;
mod scan;
mod step;
mod sum;
mod symbol;
mod value;

pub use fault::{TextFault, Unread};
pub use limits::{DEPTH_LIMIT, NAME_LIMIT, POWER_LIMIT};
pub use numbers::Numbers;
pub use parse::{parse_poly, read_number, read_poly};
pub use scan::is_number_name;
