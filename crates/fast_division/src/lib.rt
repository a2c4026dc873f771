//! Division of module vectors by a list, with an index of the list's leads and with partial sums by size.
#![tactic(auto)]

mod bucket_sum;
mod dividend;
mod division;
mod extent;
mod index;
mod kept;
mod lengthen;
mod merge;
mod partial;
mod ranks;
mod window;

pub use bucket_sum::BucketSum;
pub use dividend::Dividend;
pub use division::{index_leads, normal_form_fast, remainder_by};
pub use index::LeadIndex;
pub use kept::Multiples;
