ghost use Rattle.std.specs.Prelude.{◌≡◌, true, false, IfOk, OnOk};
ghost use Rattle.mono_order.specs.declared.limits.TheConstants.{RUN_DEGREE};
ghost use Rattle.module_vec.specs.ModuleVector.{IsMonic, lead};
ghost use Rattle.module_vec.specs.Division.{is_s_vector_over, s_vector as s_vector_of};

use ibp_field::Residue;
use module_vec::{Vector, VectorFault};
use mono_order::TermOrder;
use std::alloc::Global;

/// The S-vector: the first vector shifted to the least common multiple of the leads, minus the second one
/// shifted to it.
pub fn s_vector<O: TermOrder>(
    alloc: Global,
    left: &Vector<O>,
    right: &Vector<O>,
) -> Result<Vector<O>, VectorFault>
    requires left { IsMonic left.now }
    requires right { IsMonic right.now }
    requires component { (lead left.now).0 ≡ (lead right.now).0 }
    ensures difference { IfOk result (λ v. v ≡ s_vector_of O.order left.now right.now) }
    ensures within { OnOk result (is_s_vector_over RUN_DEGREE left.now right.now ≡ false) }
    ensures over { result ≡ Err VectorFault.DegreeOver → is_s_vector_over RUN_DEGREE left.now right.now ≡ true }
{
    let first = left.lead_term();
    let second = right.lead_term();
    let Some(lcm) = first.monomial.lcm(&second.monomial) else {
        return Err(VectorFault::DegreeOver);
    };
    let shifted = left.shift(alloc, &lcm.quotient(&first.monomial))?;
    shifted.sub_multiple(
        alloc,
        Residue::one(),
        &lcm.quotient(&second.monomial),
        right,
    )
}
