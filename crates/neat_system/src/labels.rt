// What candidates are made from.
ghost use Rattle.std.specs.Prelude.{◌≡◌, ◌<◌, ◌^◌, ◌*◌, ◌++◌, OnOk, All, length, map};
ghost use Rattle.sector_job.specs.Candidates.{labels};
ghost use Rattle.neat_system.specs.Gathering.{label_view, label_views, label_at};

use ibp_base::NoMemory;
use sector_lattice::Integral;

/// The seed of a candidate, and the number of its field, counted from 1.
#[derive(Clone, Copy)]
pub struct Label {
    /// The seed.
    pub seed: Integral,
    /// The number of the field in its sector's basis.
    pub field: u32,
}

// What the candidate at this place is made from, of those of so many fields at these seeds: lowest seed first, and at
// each seed that of each field in turn.
fn label_at(fields: usize, seeds: &[Integral], place: usize) -> Label
    requires few { fields * length seeds.now < 2 ^ 32 }
    requires within { place < fields * length seeds.now }
    ensures { label_view result ≡ label_at (labels fields seeds.now) place }
{
    Label {
        seed: seeds[place / fields],
        field: (place % fields) as u32 + 1,
    }
}

/// Adds what the candidates at these places are made from, of those of so many fields at these seeds.
pub fn add_labels(
    found: &mut Vec<Label>,
    fields: usize,
    seeds: &[Integral],
    places: &[u32],
) -> Result<(), NoMemory>
    requires few { fields * length seeds.now < 2 ^ 32 }
    requires within { All (λ place. place < fields * length seeds.now) places.now }
    ensures { OnOk result (label_views found.new.items ≡ label_views found.old.items ++ map (label_at (labels fields seeds.now)) places.now) }
{
    for place in places {
        found.push(label_at(fields, seeds, *place as usize))?;
    }
    Ok(())
}
