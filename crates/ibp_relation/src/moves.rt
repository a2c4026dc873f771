// Offsets, and integrals beside a seed.
ghost use Rattle.std.specs.Prelude.{◌≡◌, ◌-◌, ◌≤◌, pos, ◌<ℤ◌, length, map, take};
ghost use Rattle.ibp_algebra.specs.Laurent.{power_at, add_powers};
ghost use Rattle.ibp_algebra.specs.Identity.{negated};
ghost use Rattle.ibp_field.specs.Arithmetic.{int_mod};
ghost use Rattle.mono_order.specs.declared.limits.TheConstants.{VARIABLES};
ghost use Rattle.sector_lattice.specs.declared.integral.TheConstants.{POWER};
ghost use Rattle.sector_lattice.specs.Ranges.{InRange};
ghost use Rattle.family.specs.Shapes.{ArePowers};
ghost use Rattle.ibp_relation.specs.Shifts.{plus_unit, powers_of};
ghost use Rattle.ibp_relation.specs.Templates.{IsOffset};

use ibp_field::Residue;
use mono_order::{Monomial, VARIABLES};
use sector_lattice::Integral;

/// The exponents of the first n variables with the sign turned.
pub fn opposite(monomial: &Monomial, n: u8) -> Integral
    requires some { 1 ≤ n }
    requires few { n ≤ VARIABLES }
    ensures { result ≡ negated (powers_of n monomial.now) }
{
    let exponents = monomial.exponents();
    let mut powers = [0i16; VARIABLES];
    for place in 0..usize::from(n) {
        powers[place] = -(exponents[place] as i16);
    }
    in_range(&powers[..usize::from(n)])
}

/// One more of the power at z_i.
pub fn raised(integral: &Integral, i: u8) -> Integral
    requires place { (1 ≤ i) × (i ≤ length integral.now) }
    requires room { power_at integral.now (i - 1) <ℤ POWER }
    ensures { result ≡ add_powers integral.now (plus_unit (i - 1)) }
{
    let mut powers = [0i16; VARIABLES];
    let n = usize::from(integral.n());
    powers[..n].copy_from_slice(integral.powers());
    powers[usize::from(i) - 1] += 1;
    in_range(&powers[..n])
}

/// The powers of the seed with the offset added.
pub fn moved(seed: &Integral, offset: &Integral) -> Integral
    requires seed { ArePowers (length seed.now) seed.now }
    requires count { length offset.now ≡ length seed.now }
    requires offset { IsOffset offset.now }
    ensures { result ≡ add_powers seed.now offset.now }
{
    let offsets = offset.powers();
    let mut powers = [0i16; VARIABLES];
    for (place, power) in seed.powers().iter().enumerate() {
        powers[place] = *power + offsets[place];
    }
    in_range(&powers[..usize::from(seed.n())])
}

/// The powers of the seed as residues, with zeros after them.
pub fn residues(seed: &Integral) -> [Residue; VARIABLES]
    ensures { take (length seed.now) result ≡ map int_mod seed.now }
{
    let mut residues = [Residue::zero(); VARIABLES];
    for (place, power) in seed.powers().iter().enumerate() {
        residues[place] = Residue::from_i64(i64::from(*power));
    }
    residues
}

// The integral of powers that are in range.
fn in_range(powers: &[i16]) -> Integral
    requires { InRange powers.now }
    ensures { result ≡ powers.now }
{
    match Integral::new(powers) {
        Some(integral) => integral,
        None => unreachable!(),
    }
}
