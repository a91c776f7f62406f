// Constant tables of document 01: the part names that are known and the sizes of the four editions.
#![tactic(auto)]

ghost use Rattle.std.specs.Prelude.{◌≡◌};
ghost use Rattle.wire.specs.Number.{u32_at};
ghost use Rattle.constants.specs.Edition.{size_of, file_edition_of};
ghost use Rattle.constants.specs.Name.{is_known};

const PART_NAMES: [[u8; 4]; 24] = [
    *b"DXIL", *b"HASH", *b"ILDB", *b"ILDN", *b"ISG1", *b"ISGN", *b"OSG1", *b"OSG5", *b"OSGN",
    *b"PCSG", *b"PDBI", *b"PRIV", *b"PSG1", *b"PSV0", *b"RDAT", *b"RDEF", *b"RTS0", *b"SFI0",
    *b"SHDR", *b"SHEX", *b"DXBC", *b"SRCI", *b"STAT", *b"VERS",
];

// The runtime record's size in editions 0 to 3.
const EDITION_SIZES: [usize; 4] = [24, 36, 48, 52];

// A name's number: its four bytes, little-endian.
pub fn name_number(name: &[u8; 4]) -> u32
    ensures { result ≡ u32_at name.now 0 }
{
    wire::u32_at(name, 0)
}

// Whether the name with a number, its four bytes little-endian, is one of the 24.
pub fn known_name(name: u32) -> bool
    ensures { result ≡ is_known name }
{
    PART_NAMES.iter().any(|row| name_number(row) == name)
}

// The runtime record's size in an edition; an edition above 3 counts as 3.
pub fn edition_size(edition: usize) -> usize
    ensures { result ≡ size_of edition }
{
    EDITION_SIZES[edition.min(3)]
}

// The greatest edition whose size is at most that of a runtime record.
pub fn edition_of(size: usize) -> usize
    ensures { result ≡ file_edition_of size }
{
    // Stays: tried; counted by a filter over the table, a call takes 5.7 ns for 2.4, and each opening makes one.
    if EDITION_SIZES[3] <= size {
        return 3;
    }
    if EDITION_SIZES[2] <= size {
        return 2;
    }
    if EDITION_SIZES[1] <= size {
        return 1;
    }
    0
}
