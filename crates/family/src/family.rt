//! A family.

ghost use Rattle.family.specs.Limits.{FamilyLimits};
ghost use Rattle.family.specs.LimitsProp.{limits-prop};

use crate::name::Name;
use crate::parts::{Bounds, Budget, Probe, SectorCaps};
use crate::permutation::Permutation;
use ibp_base::List;
use ibp_field::Residue;
use sector_lattice::{Integral, Sector};
use sparse_poly::Poly;

/// A family of Feynman integrals in its Baikov representation, with what is asked of it. It keeps the
/// limits of a file.
#[derive(PartialEq, Eq, Drop)]
pub struct Family {
    /// The name that its system bears.
    pub name: Name,
    /// The number n of variables `z_1` to `z_n`: `L(L + 1)/2 + L E` for L loops and E independent external
    /// momenta.
    pub n: u8,
    /// The exponent `(D - L - E - 1)/2` of the Baikov polynomial in dimension D, modulo the prime.
    pub gamma: Residue,
    /// The Baikov polynomial, which is not zero.
    pub baikov: Poly,
    /// The integrals to be reduced, each once, in the order in which the file first has them.
    pub targets: List<Integral>,
    /// The sectors that are declared to be zero, with all their subsectors.
    pub zero: List<Sector>,
    /// Which seeds are taken.
    pub bounds: Bounds,
    /// The sectors with caps of their own, each once, in the order of the file.
    pub caps: List<SectorCaps>,
    /// Permutations of the variables under which integrals may be taken for one another, in the order of the file;
    /// with the identity they are a group.
    pub symmetries: List<Permutation>,
    /// How much work a sector may take.
    pub budget: Budget,
    /// A field and a seed, where the file has them.
    pub probe: Option<Probe>,
    pub ghost limits: { FamilyLimits n baikov targets zero bounds caps symmetries budget probe } by { limits-prop n baikov targets zero bounds caps symmetries budget probe },
}
