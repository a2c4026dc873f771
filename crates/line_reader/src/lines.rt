// Lines of a text, one after the other.
ghost use Rattle.std.specs.Prelude.{◌≡◌, ◌≢◌, ◌↔◌, ◌+◌, ◌*◌, ◌<◌, ◌≤◌, ◌^◌, [], ◌∷◌, ℕ, List, length, IfOk, IfErr, IsTrue};
ghost use Rattle.std.specs.List.{prefix_len};
ghost use Rattle.line_reader.specs.Lines.{is_inside, lines, IsWhole};
ghost use Rattle.line_reader.specs.declared.fault.ReadSystemFault.{ReadSystemFault};

use crate::fault::ReadSystemFault;

/// What is left of a text, and how many lines were taken.
#[derive(Drop)]
pub struct Lines<'a> {
    /// The bytes of the lines that were not taken.
    pub rest: &'a [u8],
    /// How many lines were taken.
    pub taken: u32,
    // Each line that was taken had two bytes or more.
    ghost few: { 2 * taken + length rest.now < 2 ^ 32 },
}

fn line_len(bytes: &[u8]) -> usize
    ensures within { result ≤ length bytes.now }
    ensures front { result ≡ prefix_len is_inside bytes.now }
{
    bytes.iter().take_while(|byte| **byte != b'\n').count()
}

impl<'a> Lines<'a> {
    /// All lines of the bytes.
    pub fn of(bytes: &'a [u8]) -> Lines<'a>
        requires { length bytes.now < 2 ^ 32 }
        ensures rest { result.rest.now ≡ bytes.now }
        ensures none { result.taken ≡ 0 }
    {
        Lines {
            rest: bytes,
            taken: 0,
        }
    }

    /// Whether no byte is left.
    pub fn is_empty(&self) -> bool
        ensures { IsTrue result ↔ (self.now.rest.now ≡ []) }
    {
        self.rest.is_empty()
    }

    /// The next line with its byte 10. A fault where none with such a byte is left, and where it has no
    /// other byte, since no line of a text is so.
    pub fn next(&mut self) -> Result<&'a [u8], ReadSystemFault>
        ensures line { IfOk result (λ line. lines self.old.rest.now ≡ line.now ∷ lines self.new.rest.now) }
        ensures taken { IfOk result (λ line. self.new.taken ≡ self.old.taken + 1) }
        ensures none { IfErr result (λ fault. (line : List ℕ) (others : List (List ℕ)) → IsWhole line → lines self.old.rest.now ≢ line ∷ others) }
        ensures bad { IfErr result (λ fault. fault ≡ ReadSystemFault.BadLine (self.old.taken + 1)) }
    {
        let len = line_len(self.rest);
        if len == 0 {
            return Err(ReadSystemFault::BadLine(self.taken + 1));
        }
        if len == self.rest.len() {
            return Err(ReadSystemFault::BadLine(self.taken + 1));
        }
        let (line, rest) = self.rest.split_at(len + 1);
        self.rest = rest;
        self.taken += 1;
        Ok(line)
    }

    /// The fault of the line that was taken last.
    pub fn bad(&self) -> ReadSystemFault
        ensures { result ≡ ReadSystemFault.BadLine self.now.taken }
    {
        ReadSystemFault::BadLine(self.taken)
    }

    /// The fault of the line that was not taken yet.
    pub fn bad_next(&self) -> ReadSystemFault
        ensures { result ≡ ReadSystemFault.BadLine (self.now.taken + 1) }
    {
        ReadSystemFault::BadLine(self.taken + 1)
    }
}
