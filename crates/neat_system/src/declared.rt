// What a relay opens with.
ghost use Rattle.std.specs.Prelude.{◌≡◌, IfOk};
ghost use Rattle.family.specs.FamilyView.{family_view};
ghost use Rattle.sector_job.specs.Outcomes.{opening_targets};

use family::Family;
use ibp_base::NoMemory;
use sector_lattice::Integral;
use std::alloc::Global;

/// The declared targets that are in no zero sector.
pub fn opening_targets(alloc: Global, family: &Family) -> Result<Vec<Integral>, NoMemory>
    ensures { IfOk result (λ targets. targets.items ≡ opening_targets (family_view family.now)) }
{
    let mut targets = Vec::new(alloc);
    for target in family.targets.as_slice() {
        if !family.is_zero(target.sector()) {
            targets.push(*target)?;
        }
    }
    Ok(targets)
}
