//! The text that goes to a sink.

ghost use Rattle.std.specs.Prelude.{OnOk, OnErr};
ghost use Rattle.std.specs.Io.KnownBytes.{Appends};
ghost use Rattle.ibp_outside.specs.Causes.{HasCause};
ghost use Rattle.commands.specs.Output.{AppendsFront};

use ibp_outside::{Failed, Sink};

/// Gives the text to a sink, again and again what it has not taken yet.
pub fn write_text<K: Sink>(sink: &mut K, text: &[u8]) -> Result<(), Failed>
    ensures ok { OnOk result (Appends (K.taken sink.old) (K.taken sink.new) text.now) }
    ensures err { OnErr result (AppendsFront (K.taken sink.old) (K.taken sink.new) text.now) }
    ensures cause { HasCause (K.faults sink.old) (K.faults sink.new) result }
{
    let mut at = 0;
    while at < text.len() {
        at += sink.write(&text[at..])?;
    }
    Ok(())
}
