//! How a run ends.

ghost use Rattle.std.specs.Prelude.{◌≡◌, ◌+◌, ◌≤◌, ◌++◌, length, take, decimal};
ghost use Rattle.commands.specs.Statuses.{status_of, input_status, words_status};
ghost use Rattle.commands.specs.StatusText.{check_message, code_of, cut_message, field_message, message_of};

use crate::input::InputFault;
use crate::refusal::Refusal;
use crate::words::WordsFault;
use cut_family::CutFault;
use family_file::FileFault;
use itoa::Buffer;
use sector_lattice::Sector;
use system_check::CheckFault;

/// How a run ends.
#[derive(Clone, Copy, Debug, PartialEq, Eq)]
pub enum Status {
    /// All was done and written.
    Done,
    /// The words are no command.
    Usage,
    /// The source failed.
    ReadFault,
    /// The file has a fault.
    File(FileFault),
    /// The variable of this number is in the seed's sector, and does not divide its polynomial of the
    /// probe's field.
    NotDivisible(u8),
    /// The probe's field is not tangent to the zero set of the Baikov polynomial.
    NotTangent,
    /// The budget of pairs is spent in this sector.
    PairsSpent(Sector),
    /// A degree is over the limit in this sector.
    DegreeOver(Sector),
    /// There are more candidates than the budget allows in this sector.
    CandidatesOver(Sector),
    /// The sink failed.
    WriteFault,
    /// Memory ran out before the first byte was written.
    NoMemory,
    /// The written text is not right for the family.
    CheckedNo(CheckFault),
    /// The family has no cut family.
    Cut(CutFault),
    /// The permutation of this number, counted from 1, is the first that is not a symmetry of the family.
    NotSymmetric(u32),
}

impl From<WordsFault> for Status {
    ghost from_gives = { λ fault status. status ≡ words_status fault };

    fn from(fault: WordsFault) -> Status {
        match fault {
            WordsFault::Usage => Status::Usage,
            WordsFault::NoMemory => Status::NoMemory,
        }
    }
}

impl From<InputFault> for Status {
    ghost from_gives = { λ fault status. status ≡ input_status fault };

    fn from(fault: InputFault) -> Status {
        match fault {
            InputFault::Failed => Status::ReadFault,
            InputFault::NoMemory => Status::NoMemory,
        }
    }
}

impl From<Refusal> for Status {
    ghost from_gives = { λ refusal status. status ≡ status_of refusal };

    fn from(refusal: Refusal) -> Status {
        match refusal {
            Refusal::File(fault) => Status::File(fault),
            Refusal::NotDivisible(i) => Status::NotDivisible(i),
            Refusal::NotTangent => Status::NotTangent,
            Refusal::CheckedNo(fault) => Status::CheckedNo(fault),
            Refusal::Cut(fault) => Status::Cut(fault),
            Refusal::NotSymmetric(number) => Status::NotSymmetric(number),
            Refusal::PairsSpent(sector) => Status::PairsSpent(sector),
            Refusal::DegreeOver(sector) => Status::DegreeOver(sector),
            Refusal::CandidatesOver(sector) => Status::CandidatesOver(sector),
            Refusal::NoMemory => Status::NoMemory,
        }
    }
}

impl Status {
    /// The exit status: 0 for `Done`, and from 2 to 13 for a refusal. 1 is none of the tool's.
    pub fn code(&self) -> u8
        ensures { result ≡ code_of self.now }
    {
        match self {
            Status::Done => 0,
            Status::Usage => 2,
            Status::ReadFault => 3,
            Status::File(_) => 4,
            Status::NotDivisible(_) | Status::NotTangent => 5,
            Status::PairsSpent(_) => 6,
            Status::DegreeOver(_) => 7,
            Status::CandidatesOver(_) => 8,
            Status::WriteFault => 9,
            Status::NoMemory => 10,
            Status::CheckedNo(_) => 11,
            Status::Cut(_) => 12,
            Status::NotSymmetric(_) => 13,
        }
    }
}

// Puts the bytes behind the front of the buffer that is filled, and answers how much is filled
// then.
fn put(out: &mut [u8; 128], filled: usize, piece: &[u8]) -> usize
    requires { filled + length piece.now ≤ 128 }
    ensures length { result ≡ filled + length piece.now }
    ensures text { take result out.new ≡ take filled out.old ++ piece.now }
{
    let end = filled + piece.len();
    out[filled..end].copy_from_slice(piece);
    end
}

// Puts the bytes and then a number at the front of the buffer.
fn put_numbered(out: &mut [u8; 128], piece: &[u8], number: u32) -> usize
    requires { length piece.now ≤ 64 }
    ensures length { result ≡ length (piece.now ++ decimal number) }
    ensures few { result ≤ length piece.now + 40 }
    ensures text { take result out.new ≡ piece.now ++ decimal number }
{
    let mut buffer = Buffer::new();
    let filled = put(out, 0, piece);
    put(out, filled, buffer.format(number).as_bytes())
}

// Puts the message of a field of a sector that is not right at the front of the buffer.
fn put_field(out: &mut [u8; 128], field: u32, sector: Sector) -> usize
    ensures length { result ≡ length (field_message sector field) }
    ensures within { result ≤ 128 }
    ensures text { take result out.new ≡ field_message sector field }
{
    let filled = put_numbered(out, b"checked no: field ", field);
    let filled = put(out, filled, b" of sector ");
    let mut buffer = Buffer::new();
    put(out, filled, buffer.format(sector.0).as_bytes())
}

// Puts the message of a fault of a cut at the front of the buffer.
fn put_cut_fault(out: &mut [u8; 128], fault: &CutFault) -> usize
    ensures length { result ≡ length (cut_message fault.now) }
    ensures within { result ≤ 128 }
    ensures text { take result out.new ≡ cut_message fault.now }
{
    match fault {
        CutFault::All => put(out, 0, b"cut fault all"),
        CutFault::Zero => put(out, 0, b"cut fault zero"),
        CutFault::Target(number) => put_numbered(out, b"cut fault target ", *number),
    }
}

// Puts the message of a fault of a written text at the front of the buffer.
fn put_check_fault(out: &mut [u8; 128], fault: &CheckFault) -> usize
    ensures length { result ≡ length (check_message fault.now) }
    ensures within { result ≤ 128 }
    ensures text { take result out.new ≡ check_message fault.now }
{
    match fault {
        CheckFault::TooLong => put(out, 0, b"checked no: too long"),
        CheckFault::BadText(line) => put_numbered(out, b"checked no: text line ", *line),
        CheckFault::BadName => put(out, 0, b"checked no: name"),
        CheckFault::BadField { sector, field } => put_field(out, *field, *sector),
        CheckFault::BadRelation(number) => put_numbered(out, b"checked no: relation ", *number),
        CheckFault::BadTargets => put(out, 0, b"checked no: targets"),
        CheckFault::BadReduction(number) => put_numbered(out, b"checked no: reduction ", *number),
    }
}

/// Puts the message of a status at the front of the buffer, without a line end, and answers its length,
/// which is 0 for `Done`.
pub fn status_text(status: &Status, out: &mut [u8; 128]) -> usize
    ensures length { result ≡ length (message_of status.now) }
    ensures within { result ≤ 128 }
    ensures text { take result out.new ≡ message_of status.now }
{
    match status {
        Status::Done => 0,
        Status::Usage => put(
            out,
            0,
            b"usage: neatibp identity | basis N | plain | system --workers W | drill N | check | meet N | cut N | fold",
        ),
        Status::ReadFault => put(out, 0, b"read fault"),
        Status::File(fault) => put_numbered(out, b"file fault F", u32::from(fault.number())),
        Status::NotDivisible(i) => put_numbered(out, b"not divisible z", u32::from(*i)),
        Status::NotTangent => put(out, 0, b"not tangent"),
        Status::PairsSpent(sector) => put_numbered(
            out,
            b"pairs spent in sector ",
            u32::from(sector.0),
        ),
        Status::DegreeOver(sector) => put_numbered(
            out,
            b"degree over in sector ",
            u32::from(sector.0),
        ),
        Status::CandidatesOver(sector) => {
            put_numbered(out, b"candidates over in sector ", u32::from(sector.0))
        }
        Status::WriteFault => put(out, 0, b"write fault"),
        Status::NoMemory => put(out, 0, b"no memory"),
        Status::CheckedNo(fault) => put_check_fault(out, fault),
        Status::Cut(fault) => put_cut_fault(out, fault),
        Status::NotSymmetric(number) => put_numbered(out, b"not symmetric ", *number),
    }
}
