// The definitions of the night's figures, with the types of the answers about them, and what is proved of them; the code is a crate of its own.
#![tactic(auto)]

use wire::Refusal;

// What an opening that is accepted tells: the file's edition, and the stage that the reading shows.
#[derive(Clone, Copy, Debug, PartialEq, Eq)]
pub struct Told {
    pub file_edition: usize,
    pub stage: Option<u32>,
}

// What opening a container tells the figures: that or the refusal, and the container's length.
// Stays: the length stands beside a refusal too (d): `accepted_length` says of which answers it is summed, and of a refusal it could not say it.
#[derive(Clone, Copy, Debug, PartialEq, Eq)]
pub struct Answer {
    pub opening: Result<Told, Refusal>,
    pub len: usize,
}

// Figures: the edition that they were started at, the sum of the accepted lengths, how many were opened, accepted and refused, and the counts by
// refusal number, by the file's edition and by stage or unset. An opening gives 1 to 25; the places 0, 26 and 27 leave no padding.
// Stays: C reads and keeps the figures as they are (a: `qollqamir_figures_add`), so the counts are arrays of fixed length, refusal 0 among them.
#[repr(C)]
#[derive(Clone, Copy, Debug, PartialEq, Eq)]
pub struct Figures {
    pub edition: usize,
    pub bytes: u64,
    pub opened: u16,
    pub accepted: u16,
    pub refused: u16,
    pub refusals: [u16; 28],
    pub editions: [u16; 4],
    pub stages: [u16; 16],
    pub unset: u16,
}

// A container that is counted: what its opening gave, and the figures with it.
// Stays: the figures stand beside a refusal too (d), since what is refused is counted.
#[derive(Clone, Copy, Debug, PartialEq, Eq)]
pub struct Addition {
    pub opening: Result<(), Refusal>,
    pub figures: Figures,
}

// 65,535 containers were opened. Figures are copied, so the caller still has them as they were.
#[derive(Clone, Copy, Debug, PartialEq, Eq)]
pub struct Full;

// Why two figures don't join. The caller still has both as they were.
#[derive(Clone, Copy, Debug, PartialEq, Eq)]
pub enum JoinError {
    OtherEdition,
    Full,
}
