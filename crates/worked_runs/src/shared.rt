use ibp_field::Residue;
use module_basis::Basis;
use module_vec::{Vector, VectorFault};
use mono_order::{OverPosition, Term, ZeroDominates};
use pair_queue::Pair;

// A term of a vector is small.
const _: () = prove!(size_of::<(Term, Residue)>() <= 40);

fn is_shared<T: Send + Sync>() {}

#[test]
fn threads_share_vectors() {
    is_shared::<Term>();
    is_shared::<Vector<OverPosition>>();
    is_shared::<Vector<ZeroDominates>>();
    is_shared::<VectorFault>();
    is_shared::<Pair>();
    is_shared::<Basis<ZeroDominates>>();
}
