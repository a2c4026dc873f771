//! Laws of the submodule that vectors generate. Each function has an empty body.
ghost use Rattle.std.specs.Prelude.{◌≡◌, ◌↔◌, List, length};
ghost use Rattle.std.specs.List.{AllByRecursion};
ghost use Rattle.ibp_algebra.specs.FormalSum.{AllKeys};
ghost use Rattle.ibp_algebra.specs.Polynomial.{Polynomial};
ghost use Rattle.mono_order.specs.declared.limits.TheConstants.{VARIABLES};
ghost use Rattle.module_vec.specs.ModuleVector.{ModuleVector, SameVector, IsMember, IsSubmodule, sum_of_times};

/// The vectors that a list generates are a submodule.
pub fn submodule()
    ensures { (list : List ModuleVector) → IsSubmodule VARIABLES (IsMember VARIABLES list) }
{}

/// A vector is one of them exactly where it is a sum of polynomials times the vectors of the list.
pub fn members()
    ensures { (list : List ModuleVector) (v : ModuleVector) → IsMember VARIABLES list v ↔ ((factors : List Polynomial) × (length factors ≡ length list) × AllByRecursion (AllKeys (λ m. length m ≡ VARIABLES)) factors × SameVector v (sum_of_times factors list)) }
{}
