//! Copies.

ghost use Rattle.std.specs.Prelude.{◌≡◌, IfOk};
ghost use Rattle.family.specs.FamilyView.{family_view};

use crate::family::Family;
use crate::parts::{Field, Probe, StrippedField};
use crate::permutation::copy_permutations;
use ibp_base::{List, NoMemory};
use sparse_poly::copy_polynomials;
use std::alloc::Global;

fn copy_field(alloc: Global, field: &Field) -> Result<Field, NoMemory>
    ensures { IfOk result (λ f. f ≡ field.now) }
{
    let a = copy_polynomials(alloc, field.a.as_slice())?;
    let b = field.b.copy(alloc)?;
    Ok(Field { a, b })
}

fn copy_probe(alloc: Global, probe: &Option<Probe>) -> Result<Option<Probe>, NoMemory>
    ensures { IfOk result (λ p. p ≡ probe.now) }
{
    match probe {
        None => Ok(None),
        Some(probe) => {
            let field = copy_field(alloc, &probe.field)?;
            Ok(Some(Probe {
                field,
                seed: probe.seed,
            }))
        }
    }
}

impl StrippedField {
    /// An equal field.
    pub fn copy(&self, alloc: Global) -> Result<StrippedField, NoMemory>
        ensures { IfOk result (λ f. f ≡ self.now) }
    {
        let c = copy_polynomials(alloc, self.c.as_slice())?;
        let b = self.b.copy(alloc)?;
        Ok(StrippedField { c, b })
    }
}

impl Family {
    /// An equal family.
    pub fn copy(&self, alloc: Global) -> Result<Family, NoMemory>
        ensures { IfOk result (λ f. family_view f ≡ family_view self.now) }
    {
        let name = self.name.copy(alloc)?;
        let baikov = self.baikov.copy(alloc)?;
        let targets = self.targets.as_slice().to_vec(alloc)?;
        let zero = self.zero.as_slice().to_vec(alloc)?;
        let caps = self.caps.as_slice().to_vec(alloc)?;
        let symmetries = copy_permutations(alloc, self.symmetries.as_slice())?;
        let probe = copy_probe(alloc, &self.probe)?;
        Ok(Family {
            name,
            n: self.n,
            gamma: self.gamma,
            baikov,
            targets: List::from_vec(targets),
            zero: List::from_vec(zero),
            bounds: self.bounds,
            caps: List::from_vec(caps),
            symmetries,
            budget: self.budget,
            probe,
        })
    }
}
