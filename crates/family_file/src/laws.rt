//! Laws of the definitions.

ghost use Rattle.std.specs.Prelude.{◌≡◌, ◌↔◌, ℕ, ℤ, List, Ok, Contains, map};
ghost use Rattle.std.specs.List.{IsDistinct};
ghost use Rattle.std.specs.List.Sorted.{IsStrictlySortedBy};
ghost use Rattle.std.specs.Ordering.{nat_cmp};
ghost use Rattle.ibp_algebra.specs.Laurent.{same_powers};
ghost use Rattle.family.specs.Within.{DataWithin};
ghost use Rattle.family_file.specs.declared.limits.TheConstants.{MAX_FILE, LOOP_LIMIT, LEG_LIMIT, VERSION_1_LEG_LIMIT, VERSION_1_VARIABLE_LIMIT, NUMBER_LIMIT, DRILL_LIMIT};
ghost use Rattle.family_file.specs.Accepted.{MeetsNeed};
ghost use Rattle.family_file.specs.Arrays.{first_occurrences, first_place};
ghost use Rattle.family.specs.FamilyData.{FamilyData};
ghost use Rattle.family_file.specs.Family.{family_of};
ghost use Rattle.family_file.specs.declared.need.Need.{Need};

/// The family of each accepted file is within the limits, and what is needed is there.
pub fn accepted_files_keep_the_limits()
    ensures limits { (need : Need) (bytes : List ℕ) (family : FamilyData)
        → family_of need bytes ≡ Ok family → DataWithin family }
    ensures needs { (need : Need) (bytes : List ℕ) (family : FamilyData)
        → family_of need bytes ≡ Ok family → MeetsNeed need family }
{}

/// The targets of a family are those of its file and no others, each once, in the order in which the file
/// first has them.
pub fn targets_are_those_of_the_file()
    ensures members { (targets : List (List ℤ)) (powers : List ℤ) → Contains (first_occurrences targets) powers ↔ Contains targets powers }
    ensures once { (targets : List (List ℤ)) → IsDistinct same_powers (first_occurrences targets) }
    ensures order { (targets : List (List ℤ)) → IsStrictlySortedBy nat_cmp (map (first_place targets) (first_occurrences targets)) }
{}

/// The limits of a file beside those of its family, as numbers.
pub fn limits_of_files()
    ensures file { MAX_FILE ≡ 1048576 }
    ensures loops { LOOP_LIMIT ≡ 3 }
    ensures legs { LEG_LIMIT ≡ 11 }
    ensures version_1_legs { VERSION_1_LEG_LIMIT ≡ 8 }
    ensures version_1_variables { VERSION_1_VARIABLE_LIMIT ≡ 9 }
    ensures numbers { NUMBER_LIMIT ≡ 64 }
    ensures drills { DRILL_LIMIT ≡ 9999 }
{}
