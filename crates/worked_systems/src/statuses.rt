use commands::{Status, status_text};
use cut_family::CutFault;
use family_file::FileFault;
use sector_lattice::Sector;
use system_check::CheckFault;

const USAGE: &str =
    "usage: neatibp identity | basis N | plain | system --workers W | drill N | check | meet N | cut N | fold";

// Each status with its exit status and its message.
const STATUSES: [(Status, u8, &str); 22] = [
    (Status::Done, 0, ""),
    (Status::Usage, 2, USAGE),
    (Status::ReadFault, 3, "read fault"),
    (Status::File(FileFault::Targets), 4, "file fault F10"),
    (Status::NotDivisible(1), 5, "not divisible z1"),
    (Status::NotTangent, 5, "not tangent"),
    (Status::PairsSpent(Sector(2)), 6, "pairs spent in sector 2"),
    (Status::DegreeOver(Sector(3)), 7, "degree over in sector 3"),
    (
        Status::CandidatesOver(Sector(4095)),
        8,
        "candidates over in sector 4095",
    ),
    (Status::WriteFault, 9, "write fault"),
    (Status::NoMemory, 10, "no memory"),
    (
        Status::CheckedNo(CheckFault::TooLong),
        11,
        "checked no: too long",
    ),
    (
        Status::CheckedNo(CheckFault::BadText(4294967295)),
        11,
        "checked no: text line 4294967295",
    ),
    (
        Status::CheckedNo(CheckFault::BadName),
        11,
        "checked no: name",
    ),
    (
        Status::CheckedNo(CheckFault::BadField {
            sector: Sector(4095),
            field: 4294967295,
        }),
        11,
        "checked no: field 4294967295 of sector 4095",
    ),
    (
        Status::CheckedNo(CheckFault::BadRelation(1)),
        11,
        "checked no: relation 1",
    ),
    (
        Status::CheckedNo(CheckFault::BadTargets),
        11,
        "checked no: targets",
    ),
    (
        Status::CheckedNo(CheckFault::BadReduction(20)),
        11,
        "checked no: reduction 20",
    ),
    (Status::Cut(CutFault::All), 12, "cut fault all"),
    (Status::Cut(CutFault::Zero), 12, "cut fault zero"),
    (
        Status::Cut(CutFault::Target(1000)),
        12,
        "cut fault target 1000",
    ),
    (Status::NotSymmetric(64), 13, "not symmetric 64"),
];

#[test]
fn each_status_has_its_message_and_code(rt: HostRuntime) {
    let mut buffer = [0; 128];
    for (status, code, text) in STATUSES {
        let len = status_text(&status, &mut buffer);
        assert_eq!(rt; &buffer[..len], text.as_bytes());
        assert_eq!(rt; status.code(), code);
    }
}
