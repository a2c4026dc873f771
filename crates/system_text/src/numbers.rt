// Numbers put at the end of a text.
ghost use Rattle.std.specs.Prelude.{◌≡◌, ◌++◌, OnOk, codes, decimal};
ghost use Rattle.std.specs.Fmt.{signed_decimal};
ghost use Rattle.system_text.specs.Texts.{residue_text};
ghost use Rattle.system_text.specs.Systems.{line};

use ibp_base::NoMemory;
use ibp_field::Residue;
use itoa::Buffer;

/// The bytes as they are.
pub fn put_bytes(text: &mut Vec<u8>, bytes: &[u8]) -> Result<(), NoMemory>
    ensures { OnOk result (text.new.items ≡ text.old.items ++ bytes.now) }
{
    text.extend_from_slice(bytes)?;
    Ok(())
}

/// A number in decimal digits.
pub fn put_whole(text: &mut Vec<u8>, number: u64) -> Result<(), NoMemory>
    ensures { OnOk result (text.new.items ≡ text.old.items ++ decimal number) }
{
    let mut buffer = Buffer::new();
    put_bytes(text, buffer.format(number).as_bytes())
}

/// A number in decimal digits, with a minus sign where it is below zero.
pub fn put_signed(text: &mut Vec<u8>, number: i16) -> Result<(), NoMemory>
    ensures { OnOk result (text.new.items ≡ text.old.items ++ signed_decimal number) }
{
    let mut buffer = Buffer::new();
    put_bytes(text, buffer.format(number).as_bytes())
}

/// A residue as the number from 0 to `PRIME` - 1.
pub fn put_residue(text: &mut Vec<u8>, residue: Residue) -> Result<(), NoMemory>
    ensures { OnOk result (text.new.items ≡ text.old.items ++ residue_text residue) }
{
    let mut buffer = Buffer::new();
    put_bytes(text, buffer.format(residue.value()).as_bytes())
}

/// A line with a word and a count.
pub fn put_count(text: &mut Vec<u8>, word: &[u8], count: usize) -> Result<(), NoMemory>
    ensures { OnOk result (text.new.items ≡ text.old.items
        ++ line (word.now ++ codes " " ++ decimal count)) }
{
    put_bytes(text, word)?;
    put_bytes(text, b" ")?;
    put_whole(text, count as u64)?;
    put_bytes(text, b"\n")
}
