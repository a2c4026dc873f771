//! The parts of a family.

use ibp_base::List;
use sector_lattice::{Integral, Sector};
use sparse_poly::Poly;

/// A field `(a_1 .. a_n ; b)`: the sum of `a_i` times the derivative by `z_i`, beside the factor b of
/// the Baikov polynomial.
#[derive(PartialEq, Eq, Drop)]
pub struct Field {
    /// The coefficients `a_1` to `a_n`, one for each variable.
    pub a: List<Poly>,
    /// What the field makes of the Baikov polynomial P is to be b times P.
    pub b: Poly,
}

/// A field `(c_1 .. c_n ; b)` of a sector without the factors that the sector asks for: it stands for the
/// field whose `a_i` is `z_i c_i` for i in the sector, and `c_i` elsewhere.
#[derive(PartialEq, Eq, Drop)]
pub struct StrippedField {
    /// The coefficients `c_1` to `c_n`, one for each variable.
    pub c: List<Poly>,
    /// The factor b of the field that it stands for.
    pub b: Poly,
}

/// Which seeds of a sector are taken: at most the cap of dots and of rank, where the sector has no caps of
/// its own, and at most so many more than the targets have. The dots of an integral are what its positive
/// powers have above 1, added up; its rank is the sum of its other powers without the sign.
#[derive(Clone, Copy, Debug, PartialEq, Eq)]
pub struct Bounds {
    /// No seed has more dots: 0 to 20.
    pub dots_cap: u32,
    /// No seed has a greater rank: 0 to 20.
    pub rank_cap: u32,
    /// How many more dots a seed may have than the targets of its sector have at most: 0 to 5.
    pub extra_dots: u32,
    /// How much more rank it may have than they have at most: 0 to 5.
    pub extra_rank: u32,
}

/// The caps of one sector, in place of those of [`Bounds`].
#[derive(Clone, Copy, Debug, PartialEq, Eq)]
pub struct SectorCaps {
    /// The sector whose seeds have these caps.
    pub sector: Sector,
    /// No seed of it has more dots: 0 to 20.
    pub dots: u32,
    /// No seed of it has a greater rank: 0 to 20.
    pub rank: u32,
}

/// Which pair a run of Buchberger's algorithm takes next. The reduced bases are the same for either; which
/// budget a run spends is not.
#[derive(Clone, Copy, Debug, PartialEq, Eq)]
pub enum Selection {
    /// The one whose least common multiple is least in the order of terms.
    Order,
    /// The one whose least common multiple has the least degree, counted so that a field of one degree is
    /// homogeneous.
    Degree,
}

/// How much work may be spent on a sector.
#[derive(Clone, Copy, Debug, PartialEq, Eq)]
pub struct Budget {
    /// How many pairs its run of Buchberger's algorithm may take: 0 to 10,000,000.
    pub pairs: u64,
    /// How many candidates for relations it may have, which are its generators times its seeds: 0 to 20,000.
    pub candidates: u64,
    /// Which pair comes next.
    pub selection: Selection,
}

/// A field and a seed of which a file asks the identity.
#[derive(PartialEq, Eq, Drop)]
pub struct Probe {
    /// The field, in the variables of the family.
    pub field: Field,
    /// The integral whose powers the identity starts from, each from -30 to 30.
    pub seed: Integral,
}
