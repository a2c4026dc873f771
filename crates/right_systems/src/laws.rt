//! The laws of written systems, each the contract of a function that does nothing.
ghost use Rattle.std.specs.Prelude.{◌≡◌, ◌≤◌, true, length};
ghost use Rattle.family.specs.FamilyData.{FamilyData};
ghost use Rattle.family.specs.Name.{is_name};
ghost use Rattle.family.specs.Within.{DataWithin};
ghost use Rattle.system_text.specs.Systems.{system_text};
ghost use Rattle.system_text.specs.SystemValues.{IsSystemValue};
ghost use Rattle.system_text.specs.declared.value.System.{System};
ghost use Rattle.neat_system.specs.System.{IsSystem};
ghost use Rattle.system_check.specs.Rightness.{IsRight, IsRightSystem};
ghost use Rattle.system_check.specs.declared.limits.TheConstants.{TEXT_LIMIT};

/// The system of a family within the limits of a file is a value that a text can have: what stands in it keeps the
/// bounds of texts.
pub fn a_system_is_a_value()
    ensures { (family : FamilyData) (system : System) → DataWithin family → is_name family.name ≡ true → IsSystem family system → IsSystemValue family.n system }
{}

/// It is right: each of its fields is in the module of its sector, each of its relations is the identity of the field
/// that it names, and its weights give the reductions of the declared targets.
pub fn a_system_is_right()
    ensures { (family : FamilyData) (system : System) → DataWithin family → IsSystem family system → IsRightSystem family system }
{}

/// So its text is right, where it is no longer than a text that is checked.
pub fn its_text_is_right()
    ensures { (family : FamilyData) (system : System) → DataWithin family → is_name family.name ≡ true → IsSystem family system → length (system_text system) ≤ TEXT_LIMIT → IsRight family (system_text system) }
{}
