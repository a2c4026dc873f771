//! The order in which the run of the meet takes its pairs.

ghost use Rattle.std.specs.Prelude.{◌≡◌, ◌+◌, ◌-◌, ◌≤◌, ◌++◌, replicate, IfOk, OnOk};
ghost use Rattle.mono_order.specs.declared.limits.TheConstants.{FIRST_HIGH};
ghost use Rattle.meet_module.specs.MeetRuns.{meet_degrees as meet_degrees_of, meet_pair_order as meet_pair_order_of};

use family::{Family, Selection};
use ibp_base::{List, NoMemory};
use mono_order::FIRST_HIGH;
use pair_queue::PairOrder;
use sector_lattice::Sector;
use sector_module::component_degrees;
use std::alloc::Global;

/// The order that the family selects, where a raised component has the degree of the component itself.
pub(crate) fn meet_pair_order(alloc: Global, family: &Family) -> Result<PairOrder, NoMemory>
    ensures { IfOk result (λ by. by ≡ meet_pair_order_of family.now.baikov family.now.n family.now.budget) }
{
    match family.budget.selection {
        Selection::Order => Ok(PairOrder::Terms),
        Selection::Degree => Ok(PairOrder::Degrees(meet_degrees(alloc, family)?)),
    }
}

// The degrees of the components 0 to n + 1, and again from the first high component on. No field is stripped.
fn meet_degrees(alloc: Global, family: &Family) -> Result<List<u16>, NoMemory>
    ensures { IfOk result (λ degrees. degrees ≡ meet_degrees_of family.now.baikov family.now.n) }
{
    let low = component_degrees(alloc, family, Sector(0))?;
    let mut degrees = Vec::new(alloc);
    degrees.extend_from_slice(low.as_slice())?;
    put_zeros(&mut degrees, FIRST_HIGH - (family.n + 2))?;
    degrees.extend_from_slice(low.as_slice())?;
    Ok(List::from_vec(degrees))
}

// Appends so many zeros.
fn put_zeros(degrees: &mut Vec<u16>, count: u8) -> Result<(), NoMemory>
    ensures { OnOk result (degrees.new.items ≡ degrees.old.items ++ replicate count 0) }
{
    for _place in 0..count {
        degrees.push(0)?;
    }
    Ok(())
}
