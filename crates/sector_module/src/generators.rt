//! A sector with its fields.

ghost use Rattle.std.specs.Prelude.{◌≡◌, IfOk};

use family::StrippedField;
use ibp_base::{List, NoMemory};
use sector_lattice::Sector;
use std::alloc::Global;
use std::marker::Model;

/// A sector and a list of stripped fields. Generators are numbered from 1 in the order of the list.
#[derive(Drop)]
pub struct Generators {
    sector: Sector,
    fields: List<StrippedField>,
}

impl Model for Generators {
    ghost use Rattle.sector_module.specs.Generators.{GeneratorsValue, generators_value};

    ghost Value = { GeneratorsValue };

    ghost view = { λ g. generators_value g.sector g.fields };
}

impl Generators {
    /// These fields of this sector.
    pub fn new(sector: Sector, fields: List<StrippedField>) -> Generators
        ensures sector { result.sector ≡ sector }
        ensures fields { result.fields ≡ fields }
    {
        Generators { sector, fields }
    }

    /// The sector.
    pub fn sector(&self) -> Sector
        ensures { result ≡ self.now.sector }
    {
        self.sector
    }

    /// The fields, the first generator first.
    pub fn fields(&self) -> &[StrippedField]
        ensures { result.now ≡ self.now.fields }
    {
        self.fields.as_slice()
    }

    /// A list of equal fields.
    pub fn copy_fields(&self, alloc: Global) -> Result<List<StrippedField>, NoMemory>
        ensures { IfOk result (λ fields. fields ≡ self.now.fields) }
    {
        let mut fields = Vec::new(alloc);
        for field in self.fields() {
            fields.push(field.copy(alloc)?)?;
        }
        Ok(List::from_vec(fields))
    }
}
