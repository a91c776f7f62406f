// The definitions of the report on the root signature of a container (document 02, Ask 6), with the type of its answer, and what is proved of
// them; the report is a crate of its own.
#![tactic(auto)]

use root_signature_layout::RootHeader;

// The header, and the part's data as a stretch of the container.
#[derive(Clone, Copy)]
pub struct RootReport {
    pub header: RootHeader,
    pub start: usize,
    pub len: usize,
}
