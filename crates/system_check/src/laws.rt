//! Laws of the definitions, each the contract of a function that does nothing.
ghost use Rattle.std.specs.Prelude.{◌≡◌, ℕ, ◌≤◌, List};
ghost use Rattle.family.specs.FamilyData.{FamilyData};
ghost use Rattle.system_text.specs.BadLines.{IsBadLine};
ghost use Rattle.system_text.specs.SystemValues.{IsSystemValue};
ghost use Rattle.system_text.specs.Systems.{system_text};
ghost use Rattle.system_text.specs.declared.value.System.{System};
ghost use Rattle.system_check.specs.declared.fault.CheckFault.{CheckFault};
ghost use Rattle.system_check.specs.Rightness.{IsRight, IsRightSystem};
ghost use Rattle.system_check.specs.Checking.{IsCause, IsFault};

/// At most one line of a text is its bad one.
pub fn one_bad_line()
    ensures { (n : ℕ) (bytes : List ℕ) (j k : ℕ) → IsBadLine n bytes j → IsBadLine n bytes k → j ≡ k }
{}

/// A text is that of one system at most.
pub fn one_value()
    ensures { (n : ℕ) (first second : System) → 1 ≤ n → n ≤ 12 → IsSystemValue n first → IsSystemValue n second → system_text first ≡ system_text second → first ≡ second }
{}

/// At most one fault is the first that a system has.
pub fn one_cause()
    ensures { (family : FamilyData) (system : System) (first second : CheckFault) → IsCause family system first → IsCause family system second → first ≡ second }
{}

/// A system that is right has no fault.
pub fn right_has_no_cause()
    ensures { (family : FamilyData) (system : System) (fault : CheckFault) → IsRightSystem family system → ¬ IsCause family system fault }
{}

/// At most one fault is the first that bytes have.
pub fn one_fault()
    ensures { (family : FamilyData) (bytes : List ℕ) (first second : CheckFault) → 1 ≤ family.n → family.n ≤ 12 → IsFault family bytes first → IsFault family bytes second → first ≡ second }
{}

/// Bytes that are right have no fault.
pub fn right_has_no_fault()
    ensures { (family : FamilyData) (bytes : List ℕ) (fault : CheckFault) → 1 ≤ family.n → family.n ≤ 12 → IsRight family bytes → ¬ IsFault family bytes fault }
{}
