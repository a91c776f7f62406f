// The definitions of the data of a part ISG1, OSG1 or PSG1 (document 02, Ask 3): a signature's header, its elements and their names; the
// reader is a crate of its own.
#![tactic(auto)]

// The fields of a signature element.
#[derive(Clone, Copy)]
pub struct SignatureElement {
    pub stream: u32,
    pub name_offset: u32,
    pub index: u32,
    pub system_value: u32,
    pub component_type: u32,
    pub register_number: u32,
    pub mask: u32,
    pub exclusive_mask: u32,
    pub precision: u32,
}

// A name as a stretch of the bytes that were asked: where it starts, its length and its code points.
#[derive(Clone, Copy, Default)]
pub struct NameSpan {
    pub start: usize,
    pub len: usize,
    pub points: usize,
}

// One element's fields and its name, if it has one.
#[derive(Clone, Copy)]
pub struct SignatureAnswer {
    pub element: SignatureElement,
    pub name: Option<NameSpan>,
}
