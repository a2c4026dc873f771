//! Which pair a run takes next.

ghost use Rattle.family_file.specs.Reading.{Returns};
ghost use Rattle.family_file.specs.Selection.{selection_of};

use crate::fault::FileFault;
use family::Selection;

/// The selection of this name.
pub fn selection_of(name: &str) -> Result<Selection, FileFault>
    ensures { Returns (λ s. s) result (selection_of name.now) }
{
    if name == "order" {
        Ok(Selection::Order)
    } else if name == "degree" {
        Ok(Selection::Degree)
    } else {
        Err(FileFault::Budget)
    }
}
