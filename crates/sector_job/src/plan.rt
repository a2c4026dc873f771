// What the jobs of one system share.
ghost use Rattle.std.specs.Prelude.{◌≡◌, IfOk};

use family::Family;
use ibp_base::NoMemory;
use std::alloc::Global;
use std::marker::Model;
use std::sync::Arc;

/// A family that the jobs of one system share. Two plans are equal where their families are.
#[derive(Drop)]
pub struct Plan {
    family: Arc<Family, Global>,
}

impl Model for Plan {
    ghost use Rattle.family.specs.declared.family.Family.{Family};
    ghost use Rattle.family.specs.contracts.family.Family.{the_row as family_row};

    ghost Value = { Family };

    ghost coded = { family_row.coded };

    ghost view = { λ p. p.family.value };
}

impl Plan {
    /// The plan of a family.
    pub fn of(alloc: Global, family: Family) -> Result<Plan, NoMemory>
        ensures { IfOk result (λ plan. plan ≡ family) }
    {
        Ok(Plan {
            family: Arc::new(alloc, family)?,
        })
    }

    /// The family.
    pub fn family(&self) -> &Family
        ensures { result.now ≡ self.now }
    {
        &self.family
    }

    /// A plan of the same family. There is none where the family has more plans already than can be counted.
    pub fn share(&self) -> Result<Plan, NoMemory>
        ensures { IfOk result (λ plan. plan ≡ self.now) }
    {
        Ok(Plan {
            family: Arc::try_clone(&self.family)?,
        })
    }
}

impl PartialEq for Plan {
    ghost use Rattle.family.specs.contracts.family.FamilyPartialEq.TheImpl.Laws.{laws-law};

    ghost eq = { ⟦<Family as PartialEq>⟧.eq };

    ghost laws = { laws-law };

    fn eq(&self, other: &Plan) -> bool {
        self.family() == other.family()
    }
}

impl Eq for Plan {
    ghost use Rattle.family.specs.contracts.family.FamilyEq.TheImpl.Laws.{laws-law};

    ghost laws = { laws-law };
}
