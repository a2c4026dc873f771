// Systems.
ghost use Rattle.std.specs.Prelude.{◌≡◌, ◌≤◌, ◌<◌, ◌^◌, ◌++◌, ◌∷◌, [], ℕ, List, length, IfOk, IfErr, IfSome};
ghost use Rattle.sector_lattice.specs.declared.integral.TheConstants.{LINES};
ghost use Rattle.line_reader.specs.Lines.{lines};
ghost use Rattle.line_reader.specs.Sections.{Answers};
ghost use Rattle.line_reader.specs.declared.fault.ReadSystemFault.{ReadSystemFault};
ghost use Rattle.system_text.specs.declared.value.System.{System};
ghost use Rattle.system_text.specs.Systems.{system_text};
ghost use Rattle.system_text.specs.SystemValues.{IsSystemValue};
ghost use Rattle.system_text.specs.SystemLines.{system_lines};
ghost use Rattle.system_text.specs.BadLines.{IsBadLine};

use crate::numbers::put_bytes;
use crate::read_blocks::next_blocks;
use crate::read_reductions::next_reductions;
use crate::read_relations::next_relations;
use crate::value::System;
use family::Name;
use ibp_base::NoMemory;
use line_reader::{LineKind, Lines, ReadSystemFault, next_line, next_word};
use std::alloc::Global;

// Lines with the name of a family.
struct NameLine;

impl LineKind<Name> for NameLine {
    ghost use Rattle.std.specs.Prelude.{◌≡◌, true};
    ghost use Rattle.family.specs.Name.{is_name};
    ghost use Rattle.system_text.specs.SomeValues.{some_name};

    ghost body = { λ _ name. name };

    ghost is_value = { λ _ name. is_name name ≡ true };

    fn told(alloc: Global, bytes: &[u8], _number: usize, _n: u8) -> Result<Option<Name>, NoMemory> {
        match bytes {
            [name @ .., _] => Name::from_bytes(alloc, name),
            [] => Ok(None),
        }
    }

    fn put_body(into: &mut Vec<u8>, _number: usize, value: &Name) -> Result<(), NoMemory> {
        put_bytes(into, value.as_bytes())
    }

    ghost some = { λ _ _ _. some_name };
}

// The system in front.
fn next_system(alloc: Global, from: &mut Lines<'_>, n: u8) -> Result<System, ReadSystemFault>
    requires some { 1 ≤ n }
    requires few { n ≤ LINES }
    ensures { Answers system_lines (IsSystemValue n) (lines from.old.rest.now) from.old.taken (lines from.new.rest.now) from.new.taken result }
{
    next_word(from, b"neatibp-system 1\n")?;
    let name = next_line::<Name, NameLine>(alloc, from, b"family ", 0, n)?;
    let sectors = next_blocks(alloc, from, n)?;
    let relations = next_relations(alloc, from, n)?;
    let reductions = next_reductions(alloc, from, n)?;
    next_word(from, b"end\n")?;
    Ok(System {
        name,
        n,
        sectors,
        relations,
        reductions,
    })
}

/// The system value for n of which these bytes are the text. Where there is none, the fault names the first
/// line with which no text of a system value goes on.
pub fn read_system(alloc: Global, bytes: &[u8], n: u8) -> Result<System, ReadSystemFault>
    requires some { 1 ≤ n }
    requires few { n ≤ LINES }
    requires short { length bytes.now < 2 ^ 32 }
    ensures value { IfOk result (λ system. IsSystemValue n system) }
    ensures text { IfOk result (λ system. bytes.now ≡ system_text system) }
    ensures one { IfOk result (λ system. (other : System) → IsSystemValue n other → bytes.now ≡ system_text other → other ≡ system) }
    ensures bad { (k : ℕ) → result ≡ Err (ReadSystemFault.BadLine k) → IsBadLine n bytes.now k }
{
    let mut from = Lines::of(bytes);
    let system = next_system(alloc, &mut from, n)?;
    if from.is_empty() {
        Ok(system)
    } else {
        Err(from.bad_next())
    }
}
