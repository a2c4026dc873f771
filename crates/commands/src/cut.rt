//! What `cut` writes of a family and a sector.

ghost use Rattle.std.specs.Prelude.{◌≡◌, ◌<◌, ◌≤◌, ◌^◌};
ghost use Rattle.family.specs.FamilyView.{family_view};
ghost use Rattle.sector_lattice.specs.declared.integral.TheConstants.{LINES};
ghost use Rattle.commands.specs.Answers.{IsAnswer};
ghost use Rattle.commands.specs.Cut.{IsCutText, RefusesCut};
ghost use Rattle.commands.specs.Refusals.{of_lifted_fault};

use crate::refusal::Refusal;
use cut_family::{cut, lift, lift_sector};
use family::Family;
use neat_system::{SystemFault, run_plain};
use sector_lattice::Sector;
use std::alloc::Global;
use system_text::print_system;

// The refusal that a fault of the cut family's system is: it concerns the sector with the members of the cut.
fn of_lifted_fault(n: u8, cut: Sector, fault: SystemFault) -> Refusal
    requires { n ≤ LINES }
    ensures { result ≡ of_lifted_fault n cut.0 fault }
{
    match fault {
        SystemFault::PairsSpent(sector) => Refusal::PairsSpent(lift_sector(sector, cut, n)),
        SystemFault::DegreeOver(sector) => Refusal::DegreeOver(lift_sector(sector, cut, n)),
        SystemFault::CandidatesOver(sector) => {
            Refusal::CandidatesOver(lift_sector(sector, cut, n))
        }
        SystemFault::NoMemory => Refusal::NoMemory,
    }
}

/// The text of the lift of the system that the cut family has, where the variables of the sector of this number
/// are cut.
pub fn cut_text(alloc: Global, family: &Family, number: u16) -> Result<Vec<u8>, Refusal>
    requires { number < 2 ^ family.now.n }
    ensures { IsAnswer (IsCutText (family_view family.now) number)
        (RefusesCut (family_view family.now) number) result }
{
    let sector = Sector(number);
    let smaller = match cut(alloc, family, sector) {
        Ok(smaller) => smaller,
        Err(answer) => return Err(Refusal::from(answer)),
    };
    match run_plain(alloc, &smaller) {
        Ok(system) => {
            let lifted = lift(alloc, &system, sector, family.n)?;
            Ok(print_system(alloc, &lifted)?.into_vec())
        }
        Err(fault) => Err(of_lifted_fault(family.n, sector, fault)),
    }
}
