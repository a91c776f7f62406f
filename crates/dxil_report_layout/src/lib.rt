// The definitions of the report on a container's DXIL part (document 02, Ask 1), with the types of its answer, and what is proved of them; the
// report is a crate of its own.
#![tactic(auto)]

use dxil_layout::ProgramHeader;

// The program header's stage beside the stage that PSV0 shows.
#[derive(Clone, Copy)]
pub enum Stages {
    Equal,
    Different,
    Unset,
}

// The header's fields, the bitcode as a stretch of the container, the stage that PSV0 shows and how the two stages compare.
#[derive(Clone, Copy)]
pub struct ProgramReport {
    pub header: ProgramHeader,
    pub start: usize,
    pub len: usize,
    pub psv0_stage: Option<u32>,
    pub stages: Stages,
}
