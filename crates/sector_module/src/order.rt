//! The order in which a run takes its pairs.

ghost use Rattle.std.specs.Prelude.{◌≡◌, ◌-◌, ◌+◌, if◌then◌else◌, IfOk};
ghost use Rattle.family.specs.Conditions.{in_sector};
ghost use Rattle.sector_module.specs.PairOrders.{component_degrees as component_degrees_of, pair_order as pair_order_of};

use crate::factors::is_inside;
use family::{Family, Selection};
use ibp_base::{List, NoMemory};
use pair_queue::PairOrder;
use sector_lattice::Sector;
use std::alloc::Global;

/// The order that the family selects for a run whose vectors are fields, stripped of the variables of the sector.
/// Where fields are not stripped it is that of the empty sector.
pub fn pair_order(alloc: Global, family: &Family, stripped: Sector) -> Result<PairOrder, NoMemory>
    ensures { IfOk result (λ by. by ≡ pair_order_of family.now.budget.selection (component_degrees_of family.now.baikov family.now.n (in_sector stripped.0))) }
{
    match family.budget.selection {
        Selection::Order => Ok(PairOrder::Terms),
        Selection::Degree => Ok(PairOrder::Degrees(component_degrees(alloc, family, stripped)?)),
    }
}

/// The degrees of the components 0 to n + 1 of vectors for fields, stripped of the variables of the sector. With these
/// each term of a homogeneous field, and of its combination with the derivatives of P, has one degree.
pub fn component_degrees(
    alloc: Global,
    family: &Family,
    stripped: Sector,
) -> Result<List<u16>, NoMemory>
    ensures { IfOk result (λ degrees. degrees ≡ component_degrees_of family.now.baikov family.now.n (in_sector stripped.0)) }
{
    let degree = family.baikov.degree();
    let mut degrees = Vec::new(alloc);
    degrees.push(0)?;
    for place in 0..family.n {
        degrees.push(variable_degree(degree, is_inside(stripped, place + 1)))?;
    }
    degrees.push(degree)?;
    Ok(List::from_vec(degrees))
}

// The degree of a variable's component, by that of the Baikov polynomial.
fn variable_degree(degree: u16, is_stripped: bool) -> u16
    ensures { result ≡ degree - 1 + (if is_stripped then 1 else 0) }
{
    degree.saturating_sub(1) + u16::from(is_stripped)
}
