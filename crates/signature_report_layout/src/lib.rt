// The definitions of the two reports on a signature part of a container (document 02, Ask 3), with the types of their answers, and what is
// proved of them; the reports are a crate of their own.
#![tactic(auto)]

// A signature part, and with it a list of PSV0: ISG1 and the input elements, OSG1 and the output elements, PSG1 and the patch constant or
// primitive elements.
#[derive(Clone, Copy)]
pub enum SignaturePart {
    Input,
    Output,
    Patch,
}

// The element count, and the part's data as a stretch of the container.
#[derive(Clone, Copy)]
pub struct SignatureReport {
    pub count: usize,
    pub start: usize,
    pub len: usize,
}
