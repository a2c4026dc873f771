//! The laws of systems, each the contract of a function that does nothing.
ghost use Rattle.std.specs.Prelude.{◌≡◌, ◌⊎◌, ℕ};
ghost use Rattle.family.specs.Within.{DataWithin};
ghost use Rattle.family.specs.FamilyData.{FamilyData};
ghost use Rattle.sector_job.specs.declared.outcome.Outcome.{Outcome};
ghost use Rattle.system_text.specs.declared.value.System.{System};
ghost use Rattle.neat_system.specs.Answer.{HasFault};
ghost use Rattle.neat_system.specs.System.{IsSystem, IsFault};
ghost use Rattle.neat_system.specs.Headline.{AreIdentities, NoPowerRises, ReducesAsAll, IsIndependentSystem, NoneToSpare, OneCandidateList};

/// A family within the limits of a file has at most one system.
pub fn one_system()
    ensures { (family : FamilyData) (first second : System) → DataWithin family → IsSystem family first → IsSystem family second → first ≡ second }
{}

/// It has at most one fault.
pub fn one_fault()
    ensures { (family : FamilyData) (first second : ℕ) (outcome other : Outcome) → DataWithin family → IsFault family first outcome → IsFault family second other → (first ≡ second) × (outcome ≡ other) }
{}

/// Where it has a fault it has no system.
pub fn never_both()
    ensures { (family : FamilyData) (system : System) (sector : ℕ) (outcome : Outcome) → DataWithin family → IsFault family sector outcome → IsSystem family system → ⊥ }
{}

/// A family within the limits has a system, or a fault.
pub fn system_or_fault()
    ensures { (family : FamilyData) → DataWithin family → ((system : System) × IsSystem family system) ⊎ HasFault family }
{}

/// Each relation of a system is the identity of a field of the reduced basis of its seed's sector, as the system
/// itself lists it. Integrals of the family's zero sectors are left out.
pub fn relations_are_identities()
    ensures { (family : FamilyData) (system : System) → DataWithin family → IsSystem family system → AreIdentities family system }
{}

/// No propagator power rises in the relations of a system.
pub fn no_power_rises()
    ensures { (family : FamilyData) (system : System) → DataWithin family → IsSystem family system → NoPowerRises family system }
{}

/// Each declared target is reduced to the same combination as all candidates reduce it to, and the weights over the
/// numbered relations give it.
pub fn reduces_as_all()
    ensures { (family : FamilyData) (system : System) → IsSystem family system → ReducesAsAll family system }
{}

/// The relations of a system are independent.
pub fn relations_are_independent()
    ensures { (family : FamilyData) (system : System) → IsSystem family system → IsIndependentSystem system }
{}

/// Without any one of its relations some declared target has another reduced form.
pub fn none_to_spare()
    ensures { (family : FamilyData) (system : System) → IsSystem family system → NoneToSpare family system }
{}

/// A family within the limits has at most one list of all candidates.
pub fn one_candidate_list()
    ensures { OneCandidateList }
{}
