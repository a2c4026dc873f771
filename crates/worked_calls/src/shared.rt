use ibp_base::List;
use ibp_field::Residue;
use mono_order::Monomial;
use relation_pick::Picked;
use sector_lattice::{Integral, Sector};
use sparse_poly::Poly;
use sparse_rows::Row;

// A term of a polynomial is small, and so is one of a row.
const _: () = prove!(size_of::<(Monomial, Residue)>() <= 32);

const _: () = prove!(size_of::<(Integral, Residue)>() <= 40);

fn is_shared<T: Send + Sync>() {}

#[test]
fn threads_share_values() {
    is_shared::<List<u32>>();
    is_shared::<Residue>();
    is_shared::<Monomial>();
    is_shared::<Poly>();
    is_shared::<Sector>();
    is_shared::<Integral>();
    is_shared::<Row>();
    is_shared::<Picked>();
}
