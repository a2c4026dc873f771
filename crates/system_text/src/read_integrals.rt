// Integrals, and rows of them.
ghost use Rattle.std.specs.Prelude.{◌≡◌, ◌≤◌, ◌<◌, ◌^◌, ◌++◌, ◌∷◌, [], ℕ, ℤ, List, length, IfOk, IfSome, IsTrue, ◌↔◌, All, ◌≤ℤ◌};
ghost use Rattle.sector_lattice.specs.declared.integral.TheConstants.{LINES};
ghost use Rattle.family.specs.Shapes.{ArePowers};
ghost use Rattle.family.specs.declared.limits.TheConstants.{LEAST_POWER, GREATEST_POWER};
ghost use Rattle.line_reader.specs.Fronts.{IsSomeWith};
ghost use Rattle.system_text.specs.Texts.{integral_text, row_text};
ghost use Rattle.system_text.specs.SystemValues.{IsIntegral, IsRow};

use crate::integrals::put_row;
use family::{GREATEST_POWER, LEAST_POWER};
use ibp_base::NoMemory;
use ibp_field::Residue;
use line_reader::{Entry, LineKind, after, entries_at, power_at, residue_at};
use sector_lattice::Integral;
use sparse_rows::Row;
use std::alloc::Global;

/// Powers.
pub struct Power;

impl Entry<i16> for Power {
    ghost use Rattle.std.specs.Fmt.{signed_decimal};
    ghost use Rattle.line_reader.specs.Fronts.{EndsNumber};
    ghost use Rattle.system_text.specs.Integrals.{IsPower};

    ghost text = { signed_decimal };

    ghost is_entry = { IsPower };

    ghost ends = { EndsNumber };

    fn front(_alloc: Global, bytes: &[u8], _n: u8) -> Result<Option<(i16, &[u8])>, NoMemory> {
        Ok(power_at(bytes))
    }
}

/// The integral of n powers in front, and what follows it.
pub fn integral_at(
    alloc: Global,
    bytes: &[u8],
    n: u8,
) -> Result<Option<(Integral, &[u8])>, NoMemory>
    requires least { 1 ≤ n }
    requires few { n ≤ LINES }
    ensures reads { (powers : List ℤ) (rest : List ℕ) → IsIntegral n powers → bytes.now ≡ integral_text powers ++ rest
        → IfOk result (λ found. IsSomeWith found (λ r. (r.0 ≡ powers) × (r.1.now ≡ rest))) }
    ensures integral { IfOk result (λ found. IfSome found (λ r. IsIntegral n r.0)) }
    ensures shorter { IfOk result (λ found. IfSome found (λ r. length r.1.now ≤ length bytes.now)) }
{
    let Some(inside) = after(bytes, b"[") else {
        return Ok(None);
    };
    let Some((powers, others)) = entries_at::<i16, Power>(alloc, inside, b",", n)? else {
        return Ok(None);
    };
    let Some(rest) = after(others, b"]") else {
        return Ok(None);
    };
    if powers.len() != usize::from(n) {
        return Ok(None);
    }
    let Some(integral) = Integral::new(&powers) else {
        return Ok(None);
    };
    Ok(Some((integral, rest)))
}

/// Terms of rows.
pub struct RowTerm;

impl Entry<(Integral, Residue)> for RowTerm {
    ghost use Rattle.system_text.specs.Texts.{row_term_text};
    ghost use Rattle.system_text.specs.Integrals.{IsRowTerm, Anything};

    ghost text = { row_term_text };

    ghost is_entry = { IsRowTerm };

    ghost ends = { Anything };

    fn front(
        alloc: Global,
        bytes: &[u8],
        n: u8,
    ) -> Result<Option<((Integral, Residue), &[u8])>, NoMemory> {
        let Some((value, behind)) = residue_at(bytes) else {
            return Ok(None);
        };
        let Some(others) = after(behind, b"*I") else {
            return Ok(None);
        };
        match integral_at(alloc, others, n) {
            Ok(Some((integral, rest))) => Ok(Some(((integral, value), rest))),
            Ok(None) => Ok(None),
            Err(fault) => Err(fault),
        }
    }
}

// The row of these bytes and a line end.
fn row_told(alloc: Global, bytes: &[u8], n: u8) -> Result<Option<Row>, NoMemory>
    requires least { 1 ≤ n }
    requires few { n ≤ LINES }
    ensures told { (row : List (List ℤ × ℕ)) → IsRow n row → bytes.now ≡ row_text row ++ 10 ∷ [] → IfOk result (λ found. IsSomeWith found (λ r. r ≡ row)) }
    ensures row { IfOk result (λ found. IfSome found (λ r. IsRow n r)) }
{
    if bytes == b"0\n".as_slice() {
        return Ok(Some(Row::from_terms(alloc, &[])?));
    }
    let Some((terms, _)) = entries_at::<(Integral, Residue), RowTerm>(alloc, bytes, b" ", n)? else {
        return Ok(None);
    };
    Ok(Some(Row::from_terms(alloc, &terms)?))
}

/// Lines with a row.
pub struct RowLine;

impl LineKind<Row> for RowLine {
    ghost use Rattle.system_text.specs.Texts.{row_text};
    ghost use Rattle.system_text.specs.SystemValues.{IsRow};
    ghost use Rattle.system_text.specs.SomeValues.{some_row};

    ghost body = { λ _ row. row_text row };

    ghost is_value = { IsRow };

    fn told(alloc: Global, bytes: &[u8], _number: usize, n: u8) -> Result<Option<Row>, NoMemory> {
        row_told(alloc, bytes, n)
    }

    fn put_body(into: &mut Vec<u8>, _number: usize, value: &Row) -> Result<(), NoMemory> {
        put_row(into, value)
    }

    ghost some = { λ n _ _. some_row n };
}

fn are_narrow(powers: &[i16]) -> bool
    ensures { IsTrue result ↔ All (λ power. (LEAST_POWER ≤ℤ power) × (power ≤ℤ GREATEST_POWER)) powers.now }
{
    powers
        .iter()
        .all(|power| LEAST_POWER <= *power && *power <= GREATEST_POWER)
}

/// The integral in front with powers that a seed may have, and what follows it.
pub fn narrow_at(alloc: Global, bytes: &[u8], n: u8) -> Result<Option<(Integral, &[u8])>, NoMemory>
    requires least { 1 ≤ n }
    requires few { n ≤ LINES }
    ensures reads { (powers : List ℤ) (rest : List ℕ) → ArePowers n powers → bytes.now ≡ integral_text powers ++ rest
        → IfOk result (λ found. IsSomeWith found (λ r. (r.0 ≡ powers) × (r.1.now ≡ rest))) }
    ensures narrow { IfOk result (λ found. IfSome found (λ r. ArePowers n r.0)) }
{
    match integral_at(alloc, bytes, n) {
        Ok(Some((integral, rest))) => {
            if are_narrow(integral.powers()) {
                Ok(Some((integral, rest)))
            } else {
                Ok(None)
            }
        }
        Ok(None) => Ok(None),
        Err(fault) => Err(fault),
    }
}
