//! Laws of the method. Each function has an empty body.

ghost use Rattle.std.specs.Prelude.{◌≡◌, ℕ, ◌^◌, ◌<◌, ◌≤◌, ◌↔◌, List};
ghost use Rattle.std.specs.List.{All};
ghost use Rattle.ibp_algebra.specs.FormalSum.{AllKeys};
ghost use Rattle.ibp_algebra.specs.Polynomial.{Polynomial};
ghost use Rattle.mono_order.specs.declared.limits.TheConstants.{VARIABLES};
ghost use Rattle.mono_order.specs.TermOrder.{over_position, block_high};
ghost use Rattle.module_vec.specs.ModuleVector.{ModuleVector, IsMember};
ghost use Rattle.module_basis.specs.GroebnerBasis.{IsLowMember, IsReducedBasis};
ghost use Rattle.module_basis.specs.PlainRun.{RunEnd};
ghost use Rattle.family.specs.declared.parts.Budget.{Budget};
ghost use Rattle.family.specs.declared.parts.StrippedField.{StrippedField};
ghost use Rattle.family.specs.Shapes.{HasVariables, IsPolynomial};
ghost use Rattle.sector_module.specs.SectorBasis.{IsSectorBasis, IsSectorMember};
ghost use Rattle.meet_module.specs.MeetRuns.{meet_generators, stripped_generators, IsUnstripped, IsUnstrippedBasis, MeetEnds};

/// The members of the meet's run without a raised component, in the variables of the family, are exactly the fields that
/// meet the two conditions for the sector.
pub fn meet_members()
    ensures { (p : Polynomial) (n degree sector : ℕ) (tangent : List StrippedField) → n ≤ VARIABLES → sector < 2 ^ n → IsPolynomial n degree p → IsSectorBasis p n 0 tangent
        → (v : ModuleVector) → AllKeys (λ t. HasVariables n t.1) v
        → IsLowMember block_high (IsMember VARIABLES (meet_generators n sector tangent)) v ↔ IsUnstripped p n sector v }
{}

/// Stripping keeps generation: what the stripped reduced basis of these fields generates, in the variables of the family,
/// is the module of the sector.
pub fn stripped_members()
    ensures { (p : Polynomial) (n degree sector : ℕ) (list : List ModuleVector) → n ≤ VARIABLES → sector < 2 ^ n → IsPolynomial n degree p → IsUnstrippedBasis p n sector list
        → (v : ModuleVector) → AllKeys (λ t. HasVariables n t.1) v
        → IsMember VARIABLES (stripped_generators sector list) v ↔ IsSectorMember p n sector v }
{}

/// At most one list is the reduced basis of the fields that meet the two conditions.
pub fn one_unstripped_basis()
    ensures { (p : Polynomial) (n degree sector : ℕ) (first second : List ModuleVector) → n ≤ VARIABLES → sector < 2 ^ n → IsPolynomial n degree p
        → IsUnstrippedBasis p n sector first → IsUnstrippedBasis p n sector second → first ≡ second }
{}

/// The two runs end in one way.
pub fn one_end()
    ensures { (p : Polynomial) (n degree sector : ℕ) (budget : Budget) (tangent : List StrippedField) (first second : RunEnd) → n ≤ VARIABLES → sector < 2 ^ n → IsPolynomial n degree p
        → MeetEnds p n sector budget tangent first → MeetEnds p n sector budget tangent second → first ≡ second }
{}
