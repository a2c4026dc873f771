//! Systems of relations, and the texts of polynomials, rows, sector blocks and systems, and their summaries.
#![tactic(auto)]

mod blocks;
mod integrals;
mod numbers;
mod polynomials;
mod read_blocks;
mod read_counts;
mod read_integrals;
mod read_polynomials;
mod read_reductions;
mod read_relations;
mod read_systems;
mod reductions;
mod relations;
mod summaries;
mod systems;
mod value;

pub use blocks::print_block;
pub use integrals::print_row;
pub use line_reader::ReadSystemFault;
pub use polynomials::print_poly;
pub use read_systems::read_system;
pub use summaries::print_summary;
pub use systems::{print_fold, print_system};
pub use value::{Reduction, SectorBlock, System, Written};
