// What a system consists of.

use family::{Name, StrippedField};
use ibp_base::List;
use ibp_field::Residue;
use sector_lattice::{Integral, Sector};
use sparse_rows::Row;

/// A sector with a list of its fields, such as a basis of all that meet its conditions. In texts the
/// fields are numbered from 1.
#[derive(PartialEq, Eq, Drop)]
pub struct SectorBlock {
    /// The sector.
    pub sector: Sector,
    /// The fields in stripped form, field 1 first.
    pub fields: List<StrippedField>,
}

/// A written relation: the identity of a field of a sector at a seed, as a row that stands for zero.
#[derive(PartialEq, Eq, Drop)]
pub struct Written {
    /// The sector of the seed.
    pub sector: Sector,
    /// The seed at which the identity is taken.
    pub seed: Integral,
    /// The number of the field in the sector's block, counted from 1.
    pub field: u32,
    /// The identity, without the integrals of zero sectors.
    pub row: Row,
}

/// What a target reduces to, and how the relations give it: the target less the sum of the weights
/// times the rows of the relations is the reduced row.
#[derive(PartialEq, Eq, Drop)]
pub struct Reduction {
    /// The integral that is reduced.
    pub target: Integral,
    /// Its reduced form, a row of integrals that no relation reduces further.
    pub reduced: Row,
    /// The numbers of relations, counted from 1, each with its weight.
    pub weights: List<(u32, Residue)>,
}

/// A system of relations between the integrals of a family, with the reductions of its targets.
#[derive(PartialEq, Eq, Drop)]
pub struct System {
    /// The name of the family.
    pub name: Name,
    /// The number of variables.
    pub n: u8,
    /// The sectors with their bases, in sector order.
    pub sectors: List<SectorBlock>,
    /// The relations, numbered from 1.
    pub relations: List<Written>,
    /// The reductions, one for each target.
    pub reductions: List<Reduction>,
}
