//! Laws of the definitions.

ghost use Rattle.std.specs.Prelude.{◌≡◌, ℕ, ◌≤◌, List};
ghost use Rattle.ibp_algebra.specs.Polynomial.{Polynomial};
ghost use Rattle.mono_order.specs.declared.limits.TheConstants.{VARIABLES};
ghost use Rattle.module_basis.specs.PlainRun.{RunEnd};
ghost use Rattle.family.specs.declared.parts.Budget.{Budget};
ghost use Rattle.family.specs.declared.parts.StrippedField.{StrippedField};
ghost use Rattle.family.specs.Shapes.{IsPolynomial};
ghost use Rattle.sector_module.specs.Factors.{SectorRunEnds};
ghost use Rattle.sector_module.specs.SectorBasis.{IsSectorBasis};

/// The run of a sector ends in one way.
pub fn one_end()
    ensures { (p : Polynomial) (n sector : ℕ) (budget : Budget) (first second : RunEnd) → SectorRunEnds p n sector budget first → SectorRunEnds p n sector budget second → first ≡ second }
{}

/// At most one list of fields is the reduced basis of a sector.
pub fn one_basis()
    ensures { (p : Polynomial) (n degree sector : ℕ) (first second : List StrippedField) → n ≤ VARIABLES → IsPolynomial n degree p
        → IsSectorBasis p n sector first → IsSectorBasis p n sector second → first ≡ second }
{}
