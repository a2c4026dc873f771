//! Runs the worked examples of the list `examples.toml` through the top call, over sources and sinks in memory,
//! and prints a line for each. It runs in the folder `data`, and ends with status 0 only where there are examples
//! and each of them is as the list tells.
#![tactic(auto)]

mod example;
mod file;
mod outside;
mod told;

use anyhow::{Context, Result, ensure};
use example::{Example, List};
use std::fs;
use std::rt::Files;
use std::sync::Wait;
use std::thread::Threads;
use told::{Ran, is_as_told, message_of};

fn read_list<R: Files + AllocGlobal>(rt: &R) -> Result<List> {
    let text = fs::read_to_string(rt, "examples.toml").context("examples.toml")?;
    Ok(toml::from_str(rt.alloc(), text.as_str())?)
}

// Prints the line of an example, and answers whether it is as the list tells.
fn print_line(rt: &impl Print, example: &Example, ran: &Ran, text: &[u8]) -> Result<bool> {
    let mut buffer = [0; 128];
    let message = message_of(&ran.status, &mut buffer);
    let is_told = is_as_told(&example.told, ran, message, text);
    println!(rt;
        "{}: exit {}, message `{}`, {} bytes, {}",
        example.name,
        ran.status.code(),
        str::from_utf8(message)?,
        ran.taken.len(),
        if is_told { "as told" } else { "NOT AS TOLD" }
    )?;
    Ok(is_told)
}

fn try_example<R: Files + Print + AllocGlobal + Threads + Wait + Sync>(
    rt: &R,
    example: &Example,
) -> Result<bool> {
    let bytes = file::bytes_of(rt, &example.file)?;
    let text = told::text_of(rt, &example.told)?;
    let ran = outside::run(rt, example, bytes)?;
    print_line(rt, example, &ran, &text)
}

fn try_all<R: Files + Print + AllocGlobal + Threads + Wait + Sync>(
    rt: &R,
    examples: &[Example],
) -> Result<bool> {
    let mut are_told = true;
    for example in examples {
        are_told &= try_example(rt, example).with_context(|| example.name.as_str())?;
    }
    Ok(are_told)
}

fn main(rt: HostRuntime) -> Result<()> {
    let list = read_list(&rt)?;
    ensure!(!list.example.is_empty(), "the list has no example");
    let are_told = try_all(&rt, &list.example)?;
    println!(rt; "{} examples", list.example.len())?;
    ensure!(are_told, "not every example is as told");
    Ok(())
}
