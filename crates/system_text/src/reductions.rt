// Targets with their reductions and weights.
ghost use Rattle.std.specs.Prelude.{◌≡◌, ◌++◌, OnOk, codes};
ghost use Rattle.std.specs.List.{flat_map};
ghost use Rattle.system_text.specs.Systems.{count_line, weight_text, weights_text, reduction_text};

use crate::integrals::{put_integral, put_row_line};
use crate::numbers::{put_bytes, put_count, put_residue, put_whole};
use crate::value::Reduction;
use ibp_base::NoMemory;
use ibp_field::Residue;

fn put_weight(text: &mut Vec<u8>, weight: &(u32, Residue)) -> Result<(), NoMemory>
    ensures { OnOk result (text.new.items ≡ text.old.items ++ weight_text weight.now) }
{
    put_whole(text, u64::from(weight.0))?;
    put_bytes(text, b":")?;
    put_residue(text, weight.1)
}

fn put_more_weights(text: &mut Vec<u8>, weights: &[(u32, Residue)]) -> Result<(), NoMemory>
    ensures { OnOk result (text.new.items ≡ text.old.items
        ++ flat_map (λ weight. codes " " ++ weight_text weight) weights.now) }
{
    for weight in weights {
        put_bytes(text, b" ")?;
        put_weight(text, weight)?;
    }
    Ok(())
}

/// Weights with the numbers of their relations, or `none`.
pub fn put_weights(text: &mut Vec<u8>, weights: &[(u32, Residue)]) -> Result<(), NoMemory>
    ensures { OnOk result (text.new.items ≡ text.old.items ++ weights_text weights.now) }
{
    match weights {
        [] => put_bytes(text, b"none"),
        [first, others @ ..] => {
            put_weight(text, first)?;
            put_more_weights(text, others)
        }
    }
}

fn put_reduction(text: &mut Vec<u8>, reduction: &Reduction) -> Result<(), NoMemory>
    ensures { OnOk result (text.new.items ≡ text.old.items ++ reduction_text reduction.now) }
{
    put_bytes(text, b"target ")?;
    put_integral(text, &reduction.target)?;
    put_bytes(text, b"\n")?;
    put_row_line(text, b"reduces ", &reduction.reduced)?;
    put_bytes(text, b"weights ")?;
    put_weights(text, reduction.weights.as_slice())?;
    put_bytes(text, b"\n")
}

fn put_each(text: &mut Vec<u8>, reductions: &[Reduction]) -> Result<(), NoMemory>
    ensures { OnOk result (text.new.items ≡ text.old.items
        ++ flat_map reduction_text reductions.now) }
{
    for reduction in reductions {
        put_reduction(text, reduction)?;
    }
    Ok(())
}

/// The line with their number, and then each target with its reduced form and its weights.
pub fn put_reductions(text: &mut Vec<u8>, reductions: &[Reduction]) -> Result<(), NoMemory>
    ensures { OnOk result (text.new.items ≡ text.old.items
        ++ count_line (codes "targets") reductions.now ++ flat_map reduction_text reductions.now) }
{
    put_count(text, b"targets", reductions.len())?;
    put_each(text, reductions)
}
