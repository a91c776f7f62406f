// The definitions of the data of a DXIL part (document 02, Ask 1): the program header, the bitcode header in it and the bitcode; the reader is
// a crate of its own.
#![tactic(auto)]

// The fields of the program header and of the bitcode header.
#[derive(Clone, Copy)]
pub struct ProgramHeader {
    pub version_major: u32,
    pub version_minor: u32,
    pub stage: u32,
    pub words: u32,
    pub bitcode_major: u32,
    pub bitcode_minor: u32,
    pub bitcode_offset: u32,
    pub bitcode_size: u32,
}

// The fields, and the bitcode as a stretch of the data.
#[derive(Clone, Copy)]
pub struct Program {
    pub header: ProgramHeader,
    pub start: usize,
    pub len: usize,
}
