//! How an example ended, and how it must end.

ghost use Rattle.std.specs.Prelude.{◌≡◌, IsTrue, string_bytes};
ghost use Rattle.commands.specs.StatusText.{code_of};

use crate::example::Told;
use anyhow::{Context, Result, ensure};
use commands::{Status, status_text};
use std::fs;
use std::rt::Files;

/// How a run ended, and what the sink took.
#[derive(Drop)]
pub struct Ran {
    /// How it ended.
    pub status: Status,
    /// What the sink took.
    pub taken: Vec<u8>,
}

/// The message of a status, put into the buffer.
pub fn message_of<'a>(status: &Status, buffer: &'a mut [u8; 128]) -> &'a [u8] {
    let len = status_text(status, buffer);
    &buffer[..len]
}

/// The text that the sink must take.
pub fn text_of<R: Files + AllocGlobal>(rt: &R, told: &Told) -> Result<Vec<u8>> {
    let Some(name) = &told.text else {
        ensure!(told.taken.is_none(), "bytes of no text");
        return Ok(Vec::new(rt.alloc()));
    };
    let mut text = fs::read(rt, name.as_str()).with_context(|| name.as_str())?;
    if let Some(taken) = told.taken {
        ensure!(taken <= text.len(), "more bytes than the text has");
        text.truncate(taken);
    }
    Ok(text)
}

/// Whether the exit status, the message and what the sink took are those of the list.
pub fn is_as_told(told: &Told, ran: &Ran, message: &[u8], text: &[u8]) -> bool
    ensures exit { IsTrue result → code_of ran.now.status ≡ told.now.exit }
    ensures message { IsTrue result → message.now ≡ string_bytes told.now.message }
    ensures text { IsTrue result → ran.now.taken.items ≡ text.now }
{
    ran.status.code() == told.exit
        && message == told.message.as_bytes()
        && ran.taken.as_slice() == text
}
