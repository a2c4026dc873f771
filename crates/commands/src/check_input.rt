//! The two parts of the input of `check`.

ghost use Rattle.std.specs.Prelude.{◌≡◌, ◌+◌, drop, length};
ghost use Rattle.commands.specs.CheckInput.{file_from, file_part, written_part};

// The first line of a system's text.
const FIRST_LINE: &[u8] = b"neatibp-system 1\n";

// How many bytes the family file at the front of the input has: those before the first line that is the first line of a
// system, or all.
fn file_length(input: &[u8]) -> usize
    ensures { result ≡ length (file_part input.now) }
{
    let mut begins = true;
    for (place, byte) in input.iter().enumerate() {
        if begins && input[place..].starts_with(FIRST_LINE) {
            return place;
        }
        begins = *byte == b'\n';
    }
    input.len()
}

/// The family file at the front of the input, and the written text behind it, which is empty where no line is the first
/// line of a system.
#[tactic(auto, using(crate::proofs::CheckParts::take_file, crate::proofs::CheckParts::short_file))]
pub fn parts_of(input: &[u8]) -> (&[u8], &[u8])
    ensures file { result.0.now ≡ file_part input.now }
    ensures written { result.1.now ≡ written_part input.now }
{
    input.split_at(file_length(input))
}
