// Targets with their reductions and weights.
ghost use Rattle.std.specs.Prelude.{◌≡◌, ◌≤◌, ◌<◌, ◌^◌, ◌↔◌, ◌++◌, ◌∷◌, [], ℕ, List, IfOk, IfSome, IsTrue};
ghost use Rattle.sector_lattice.specs.declared.integral.TheConstants.{LINES};
ghost use Rattle.line_reader.specs.Fronts.{IsSomeWith};
ghost use Rattle.line_reader.specs.Lines.{lines};
ghost use Rattle.line_reader.specs.Sections.{Answers};
ghost use Rattle.system_text.specs.Systems.{weights_text};
ghost use Rattle.system_text.specs.SystemValues.{Ascend, AreWeights, IsReduction};
ghost use Rattle.system_text.specs.SystemLines.{AreCounted, reductions_lines};

use crate::integrals::put_integral;
use crate::read_counts::CountLine;
use crate::read_integrals::{RowLine, narrow_at};
use crate::reductions::put_weights;
use crate::value::Reduction;
use ibp_base::{List, NoMemory};
use ibp_field::Residue;
use line_reader::{
    Entry, LineKind, Lines, ReadSystemFault, Section, after, entries_at, next_line, residue_at,
    sections, whole_at,
};
use sector_lattice::Integral;
use sparse_rows::Row;
use std::alloc::Global;

// Weights with the numbers of their relations.
struct Weight;

impl Entry<(u32, Residue)> for Weight {
    ghost use Rattle.line_reader.specs.Fronts.{EndsNumber};
    ghost use Rattle.system_text.specs.Systems.{weight_text};
    ghost use Rattle.system_text.specs.SystemValues.{IsWeight};

    ghost text = { weight_text };

    ghost is_entry = { λ _ weight. IsWeight weight };

    ghost ends = { EndsNumber };

    fn front(
        _alloc: Global,
        bytes: &[u8],
        _n: u8,
    ) -> Result<Option<((u32, Residue), &[u8])>, NoMemory> {
        let Some((relation, behind)) = whole_at(bytes) else {
            return Ok(None);
        };
        let Some(others) = after(behind, b":") else {
            return Ok(None);
        };
        let Some((weight, rest)) = residue_at(others) else {
            return Ok(None);
        };
        if relation == 0 || weight.value() == 0 {
            return Ok(None);
        }
        Ok(Some(((relation, weight), rest)))
    }
}

// Whether each number is above the one before it, and the first one above 0.
fn ascend(weights: &[(u32, Residue)]) -> bool
    ensures { IsTrue result ↔ Ascend 0 weights.now }
{
    let mut last = 0;
    for weight in weights {
        if weight.0 <= last {
            return false;
        }
        last = weight.0;
    }
    true
}

// The weights of these bytes and a line end.
fn weights_told(
    alloc: Global,
    bytes: &[u8],
    n: u8,
) -> Result<Option<List<(u32, Residue)>>, NoMemory>
    requires some { 1 ≤ n }
    requires few { n ≤ LINES }
    ensures told { (weights : List (ℕ × ℕ)) → AreWeights weights → bytes.now ≡ weights_text weights ++ 10 ∷ [] → IfOk result (λ found. IsSomeWith found (λ r. r ≡ weights)) }
    ensures weights { IfOk result (λ found. IfSome found (λ r. AreWeights r)) }
{
    if bytes == b"none\n".as_slice() {
        return Ok(Some(List::from_vec(Vec::new(alloc))));
    }
    let Some((weights, _)) = entries_at::<(u32, Residue), Weight>(alloc, bytes, b" ", n)? else {
        return Ok(None);
    };
    if ascend(&weights) {
        Ok(Some(List::from_vec(weights)))
    } else {
        Ok(None)
    }
}

// Lines with the weights of a reduction.
struct WeightsLine;

impl LineKind<List<(u32, Residue)>> for WeightsLine {
    ghost use Rattle.system_text.specs.Systems.{weights_text};
    ghost use Rattle.system_text.specs.SystemValues.{AreWeights};
    ghost use Rattle.system_text.specs.SomeValues.{some_weights};

    ghost body = { λ _ weights. weights_text weights };

    ghost is_value = { λ _ weights. AreWeights weights };

    fn told(
        alloc: Global,
        bytes: &[u8],
        _number: usize,
        n: u8,
    ) -> Result<Option<List<(u32, Residue)>>, NoMemory> {
        weights_told(alloc, bytes, n)
    }

    fn put_body(
        into: &mut Vec<u8>,
        _number: usize,
        value: &List<(u32, Residue)>,
    ) -> Result<(), NoMemory> {
        put_weights(into, value.as_slice())
    }

    ghost some = { λ _ _ _. some_weights };
}

// Lines with a target.
struct TargetLine;

impl LineKind<Integral> for TargetLine {
    ghost use Rattle.family.specs.Shapes.{ArePowers};
    ghost use Rattle.system_text.specs.Texts.{integral_text};
    ghost use Rattle.system_text.specs.SomeValues.{some_powers};

    ghost body = { λ _ powers. integral_text powers };

    ghost is_value = { ArePowers };

    fn told(
        alloc: Global,
        bytes: &[u8],
        _number: usize,
        n: u8,
    ) -> Result<Option<Integral>, NoMemory> {
        match narrow_at(alloc, bytes, n) {
            Ok(Some((target, _))) => Ok(Some(target)),
            Ok(None) => Ok(None),
            Err(fault) => Err(fault),
        }
    }

    fn put_body(into: &mut Vec<u8>, _number: usize, value: &Integral) -> Result<(), NoMemory> {
        put_integral(into, value)
    }

    ghost some = { λ n _ _. some_powers n };
}

// The lines of reductions.
struct ReductionSection;

impl Section<Reduction> for ReductionSection {
    ghost use Rattle.system_text.specs.SystemLines.{reduction_lines};
    ghost use Rattle.system_text.specs.SystemValues.{IsReduction};
    ghost use Rattle.system_text.specs.SomeValues.{some_reduction};

    ghost text = { λ _ reduction. reduction_lines reduction };

    ghost is_value = { IsReduction };

    fn next(
        alloc: Global,
        from: &mut Lines<'_>,
        number: usize,
        n: u8,
    ) -> Result<Reduction, ReadSystemFault> {
        let target = next_line::<Integral, TargetLine>(alloc, from, b"target ", number, n)?;
        let reduced = next_line::<Row, RowLine>(alloc, from, b"reduces ", number, n)?;
        let weights = next_line::<List<(u32, Residue)>, WeightsLine>(
            alloc,
            from,
            b"weights ",
            number,
            n,
        )?;
        Ok(Reduction {
            target,
            reduced,
            weights,
        })
    }

    ghost some = { λ n _ _. some_reduction n };
}

/// The targets with their reductions, behind the line with their number.
pub fn next_reductions(
    alloc: Global,
    from: &mut Lines<'_>,
    n: u8,
) -> Result<List<Reduction>, ReadSystemFault>
    requires some { 1 ≤ n }
    requires few { n ≤ LINES }
    ensures { Answers reductions_lines (AreCounted (IsReduction n)) (lines from.old.rest.now) from.old.taken (lines from.new.rest.now) from.new.taken result }
{
    let count = next_line::<u32, CountLine>(alloc, from, b"targets ", 0, n)?;
    sections::<Reduction, ReductionSection>(alloc, from, count, n)
}
