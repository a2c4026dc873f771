//! The source and the sink of an example, and its run.

use crate::example::{Example, Outside};
use crate::told::Ran;
use anyhow::{Result, ensure};
use ibp_outside::{MemorySink, MemorySource, OpenGate};
use std::alloc::Global;
use std::sync::Wait;
use std::thread::Threads;
use top_call::run_tool;

// How many bytes a call moves, where the example says nothing of it.
const BYTES: usize = 4096;

// How many bytes a sink takes, where the example says nothing of it.
const ROOM: usize = 1 << 20;

fn source_of(alloc: Global, bytes: Vec<u8>, outside: Option<&Outside>) -> Result<MemorySource> {
    match outside {
        Some(outside) => {
            ensure!(outside.bytes > 0, "a source of no bytes a call");
            let fails = Vec::from_slice(alloc, &outside.fails)?;
            Ok(MemorySource::new(bytes, outside.bytes, fails))
        }
        None => Ok(MemorySource::new(bytes, BYTES, Vec::new(alloc))),
    }
}

fn sink_of(alloc: Global, outside: Option<&Outside>) -> Result<MemorySink> {
    match outside {
        Some(outside) => {
            ensure!(outside.bytes > 0, "a sink of no bytes a call");
            let room = vec![in alloc; 0; outside.room.unwrap_or(ROOM)]?;
            let fails = Vec::from_slice(alloc, &outside.fails)?;
            Ok(MemorySink::new(room, outside.bytes, fails))
        }
        None => {
            let room = vec![in alloc; 0; ROOM]?;
            Ok(MemorySink::new(room, BYTES, Vec::new(alloc)))
        }
    }
}

/// Runs the words of an example over these bytes.
pub fn run<R: AllocGlobal + Threads + Wait + Sync>(
    rt: &R,
    example: &Example,
    bytes: Vec<u8>,
) -> Result<Ran> {
    let alloc = rt.alloc();
    let mut source = source_of(alloc, bytes, example.source.as_ref())?;
    let mut sink = sink_of(alloc, example.sink.as_ref())?;
    let words = &example.words;
    let status = run_tool(rt, alloc, words, &mut source, &mut sink, &OpenGate);
    let taken = Vec::from_slice(alloc, sink.taken())?;
    Ok(Ran { status, taken })
}
