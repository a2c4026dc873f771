//! The file of an input.

use crate::example::{Input, Replacement};
use anyhow::{Context, Result, ensure};
use std::alloc::Global;
use std::fs;
use std::rt::Files;

// The bytes with one text in the place of another, which must be there.
fn replaced(alloc: Global, bytes: &[u8], replacement: &Replacement) -> Result<Vec<u8>> {
    let text = str::from_utf8(bytes)?;
    let old = replacement.old.as_str();
    ensure!(
        !old.is_empty() && text.contains(old),
        "no such text in the file: {old}"
    );
    Ok(
        text.replace(alloc, old, replacement.new.as_str())?
            .into_bytes(),
    )
}

// The bytes of the file of this name, with what changes in it.
fn bytes_with<R: Files + AllocGlobal>(
    rt: &R,
    name: &str,
    replacements: &[Replacement],
) -> Result<Vec<u8>> {
    let mut bytes = fs::read(rt, name).with_context(|| name)?;
    for replacement in replacements {
        bytes = replaced(rt.alloc(), &bytes, replacement)?;
    }
    Ok(bytes)
}

/// The bytes of the file, with what changes in it and what stands behind it.
pub fn bytes_of<R: Files + AllocGlobal>(rt: &R, input: &Input) -> Result<Vec<u8>> {
    let mut bytes = bytes_with(rt, input.name.as_str(), &input.replace)?;
    if let Some(written) = &input.written {
        bytes.extend_from_slice(&bytes_with(rt, written.name.as_str(), &written.replace)?)?;
    }
    if let Some(end) = &input.end {
        bytes.extend_from_slice(end.as_bytes())?;
    }
    if let Some(length) = input.length {
        bytes.resize(length, b'#')?;
    }
    Ok(bytes)
}
