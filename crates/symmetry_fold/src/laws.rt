//! Laws of the definitions, each the contract of a function that does nothing.
ghost use Rattle.std.specs.Prelude.{◌≡◌, ◌≢◌, ◌+◌, ◌-◌, ◌<◌, ℕ, ℤ, List, ◌∷◌, Contains, length, slice_index, true};
ghost use Rattle.std.specs.declared.cmp.Ordering.TheVariants.{Less};
ghost use Rattle.ibp_algebra.specs.Laurent.{power_at};
ghost use Rattle.sector_lattice.specs.Sectors.{integral_cmp};
ghost use Rattle.family.specs.FamilyData.{FamilyData};
ghost use Rattle.family.specs.Permutation.{is_permutation};
ghost use Rattle.system_text.specs.declared.value.System.{System};
ghost use Rattle.symmetry_fold.specs.Folding.{IsFolded};
ghost use Rattle.symmetry_fold.specs.Images.{image, images, lowest};
ghost use Rattle.symmetry_fold.specs.Symmetries.{IsFirstBroken};

/// The image of an integral has at what i becomes the power that the integral has at i.
pub fn powers_move()
    ensures { (sigma : List ℕ) (powers : List ℤ) (i : ℕ) → is_permutation (length powers) sigma ≡ true → i < length powers
        → power_at (image sigma powers) (slice_index sigma i - 1) ≡ power_at powers i }
{}

/// The lowest of an integral and its images is one of them, and none of them is lower.
pub fn lowest_is_least()
    ensures one { (entries : List (List ℕ)) (powers : List ℤ) → Contains (powers ∷ images entries powers) (lowest entries powers) }
    ensures least { (entries : List (List ℕ)) (powers other : List ℤ) → Contains (powers ∷ images entries powers) other
        → integral_cmp other (lowest entries powers) ≢ Less }
{}

/// A system has at most one folded system.
pub fn one_fold()
    ensures { (family : FamilyData) (system first second : System) → IsFolded family system first → IsFolded family system second → first ≡ second }
{}

/// At most one permutation of a family is the first that is no symmetry.
pub fn one_broken()
    ensures { (family : FamilyData) (k other : ℕ) → IsFirstBroken family k → IsFirstBroken family other → k ≡ other }
{}
