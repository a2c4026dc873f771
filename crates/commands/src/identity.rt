//! What `identity` writes of a family.

ghost use Rattle.std.specs.Prelude.{◌≡◌, IsSome, IfOk};
ghost use Rattle.family.specs.FamilyView.{family_view};
ghost use Rattle.commands.specs.Answers.{IsAnswer};
ghost use Rattle.commands.specs.Identity.{row_line, IsIdentityText, RefusesIdentity};

use crate::refusal::Refusal;
use family::{Family, Probe};
use ibp_base::NoMemory;
use ibp_relation::identity;
use sparse_rows::Row;
use std::alloc::Global;
use system_text::print_row;

// The row on a line.
fn row_line(alloc: Global, row: &Row) -> Result<Vec<u8>, NoMemory>
    ensures { IfOk result (λ line. line.items ≡ row_line row.now) }
{
    let mut line = print_row(alloc, row)?.into_vec();
    line.extend_from_slice(b"\n")?;
    Ok(line)
}

// The line of the row of the probe's identity.
fn probe_line(alloc: Global, family: &Family, probe: &Probe) -> Result<Vec<u8>, Refusal>
    requires { family.now.probe ≡ Some probe.now }
    ensures { IsAnswer (IsIdentityText (family_view family.now))
        (RefusesIdentity (family_view family.now)) result }
{
    let row = identity(alloc, family, &probe.field, &probe.seed)?;
    Ok(row_line(alloc, &row)?)
}

/// The line of the identity of the family's probe.
pub fn identity_text(alloc: Global, family: &Family) -> Result<Vec<u8>, Refusal>
    requires { IsSome family.now.probe }
    ensures { IsAnswer (IsIdentityText (family_view family.now))
        (RefusesIdentity (family_view family.now)) result }
{
    match &family.probe {
        Some(probe) => probe_line(alloc, family, probe),
        None => unreachable!(),
    }
}
