//! Names that stand for numbers.

ghost use Rattle.std.specs.Prelude.{◌≡◌, OnOk, OnErr};
ghost use Rattle.std.specs.FinMap as map;
ghost use Rattle.poly_text.specs.PolyText.{value_in};

use ibp_base::NoMemory;
use ibp_field::Residue;
use std::alloc::Global;
use std::collections::VecDeque;
use std::marker::Model;

#[derive(Drop)]
struct Entry {
    name: Vec<u8>,
    value: Residue,
}

/// Names with their numbers. Contracts see it as a finite map.
#[derive(Drop)]
pub struct Numbers {
    // The newest first.
    entries: VecDeque<Entry>,
}

impl Model for Numbers {
    ghost use Rattle.std.specs.Prelude.{ℕ, map as each};
    ghost use Rattle.std.specs.Ordering.{nat_cmp};
    ghost use Rattle.std.specs.Cmp.Lexicographic.{slice_cmp};
    ghost use Rattle.std.specs.Coded.{coded_ℕ, coded_list};
    ghost use Rattle.std.specs.FinMap as map;

    ghost Value = { map.FinMap (slice_cmp nat_cmp) ℕ };

    ghost coded = { map.code (coded_list coded_ℕ) coded_ℕ };

    ghost view = { λ a. map.from_entries (each (λ e. (e.name.items, e.value)) a.entries.items) };
}

impl Numbers {
    /// No names.
    pub fn empty(alloc: Global) -> Numbers
        ensures { result ≡ map.empty }
    {
        Numbers {
            entries: VecDeque::new(alloc),
        }
    }

    /// Gives a name its number, in place of the one that it may have.
    pub fn insert(&mut self, name: &str, value: Residue) -> Result<(), NoMemory>
        ensures ok { OnOk result (self.new ≡ map.insert self.old name.now value) }
        ensures err { OnErr result (self.new ≡ self.old) }
    {
        let name = name.as_bytes().to_vec(*self.entries.allocator())?;
        self.entries.push_front(Entry { name, value })?;
        Ok(())
    }

    /// The number of a name.
    pub fn get(&self, name: &str) -> Option<Residue>
        ensures { result ≡ value_in self.now name.now }
    {
        self.value_of(name.as_bytes())
    }

    /// The number of a name that is given by its bytes.
    pub(crate) fn value_of(&self, name: &[u8]) -> Option<Residue>
        ensures { result ≡ value_in self.now name.now }
    {
        for entry in &self.entries {
            if entry.name.as_slice() == name {
                return Some(entry.value);
            }
        }
        None
    }
}
