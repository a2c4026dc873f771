// Systems.
ghost use Rattle.std.specs.Prelude.{◌≡◌, ◌++◌, IfOk, OnOk, codes};
ghost use Rattle.system_text.specs.Systems.{line, body_text, fold_text, system_text};

use crate::blocks::put_blocks;
use crate::numbers::put_bytes;
use crate::reductions::put_reductions;
use crate::relations::put_relations;
use crate::value::System;
use family::Name;
use ibp_base::{List, NoMemory};
use std::alloc::Global;

fn put_name(text: &mut Vec<u8>, name: &Name) -> Result<(), NoMemory>
    ensures { OnOk result (text.new.items ≡ text.old.items ++ line (codes "family " ++ name.now)) }
{
    put_bytes(text, b"family ")?;
    put_bytes(text, name.as_bytes())?;
    put_bytes(text, b"\n")
}

// All lines but the first.
fn put_body(text: &mut Vec<u8>, system: &System) -> Result<(), NoMemory>
    ensures { OnOk result (text.new.items ≡ text.old.items ++ body_text system.now) }
{
    put_name(text, &system.name)?;
    put_blocks(text, system.sectors.as_slice())?;
    put_relations(text, system.relations.as_slice())?;
    put_reductions(text, system.reductions.as_slice())?;
    put_bytes(text, b"end\n")?;
    Ok(())
}

/// The text of a system, each line with its end: the name of the family, the sector blocks, the
/// relations with their numbers, and each target with its reduction and weights.
pub fn print_system(alloc: Global, system: &System) -> Result<List<u8>, NoMemory>
    ensures { IfOk result (λ text. text ≡ system_text system.now) }
{
    let mut text = Vec::new(alloc);
    put_bytes(&mut text, b"neatibp-system 1\n")?;
    put_body(&mut text, system)?;
    Ok(List::from_vec(text))
}

/// The text of a folded system: that of a system behind a first line of its own.
pub fn print_fold(alloc: Global, system: &System) -> Result<List<u8>, NoMemory>
    ensures { IfOk result (λ text. text ≡ fold_text system.now) }
{
    let mut text = Vec::new(alloc);
    put_bytes(&mut text, b"neatibp-fold 1\n")?;
    put_body(&mut text, system)?;
    Ok(List::from_vec(text))
}
