//! Sums that are being read.

ghost use Rattle.std.specs.Prelude.{◌≡◌, IfOk};
ghost use Rattle.poly_text.specs.Value.{both_values, sum_of, difference_of};
ghost use Rattle.poly_text.specs.Sum.{sum_with_multiple};

use crate::fault::TextFault;
use crate::reader::Operand;
use crate::running_sum::RunningSum;
use crate::value::{scaled, sum_of};
use ibp_base::NoMemory;
use ibp_field::Residue;
use std::alloc::Global;
use std::marker::Model;

/// The value of a sum, or its first fault. Contracts see it as the value.
#[derive(Drop)]
pub struct SumValue {
    sum: Result<RunningSum, TextFault>,
}

impl Model for SumValue {
    ghost use Rattle.std.specs.Prelude.{Result};
    ghost use Rattle.ibp_algebra.specs.Polynomial.{Polynomial};
    ghost use Rattle.poly_text.specs.declared.fault.TextFault.{TextFault};

    ghost Value = { Result Polynomial TextFault };

    ghost view = { λ s. s.sum };
}

impl SumValue {
    /// A value alone.
    pub fn of(alloc: Global, value: Operand) -> SumValue
        ensures { result ≡ value }
    {
        let sum = match value {
            Ok(first) => Ok(RunningSum::of(alloc, first)),
            Err(fault) => Err(fault),
        };
        SumValue { sum }
    }

    /// The value.
    pub fn value(self, alloc: Global) -> Result<Operand, NoMemory>
        ensures { IfOk result (λ v. v ≡ self) }
    {
        match self.sum {
            Ok(sum) => Ok(Ok(sum.poly(alloc)?)),
            Err(fault) => Ok(Err(fault)),
        }
    }

    /// The sum with one more term, under the limit on terms.
    pub fn plus(self, alloc: Global, term: Operand, at: u32) -> Result<SumValue, NoMemory>
        ensures { IfOk result (λ s. s ≡ both_values (sum_of at) self term) }
    {
        self.with_multiple(alloc, Residue::one(), term, at)
    }

    /// The sum with one term less, under the limit on terms.
    pub fn minus(self, alloc: Global, term: Operand, at: u32) -> Result<SumValue, NoMemory>
        ensures { IfOk result (λ s. s ≡ both_values (difference_of at) self term) }
    {
        self.with_multiple(alloc, Residue::one().neg(), term, at)
    }

    // The sum with a multiple of one more term, under the limit on terms.
    fn with_multiple(
        self,
        alloc: Global,
        factor: Residue,
        term: Operand,
        at: u32,
    ) -> Result<SumValue, NoMemory>
        ensures { IfOk result (λ s. s ≡ both_values (sum_with_multiple at factor) self term) }
    {
        let sum = match self.sum {
            Ok(sum) => sum,
            Err(fault) => return Ok(SumValue { sum: Err(fault) }),
        };
        let term = match term {
            Ok(term) => term,
            Err(fault) => return Ok(SumValue { sum: Err(fault) }),
        };
        if term.terms().len() < sum.len() {
            return Ok(SumValue {
                sum: sum.with_multiple(factor, &term, at)?,
            });
        }
        // One pass over all terms costs less than so many look-ups.
        let whole = sum_of(alloc, &sum.poly(alloc)?, &scaled(alloc, &term, factor)?, at)?;
        Ok(SumValue::of(alloc, whole))
    }
}
