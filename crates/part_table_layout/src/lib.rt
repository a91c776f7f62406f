// The definitions of the part table of a DirectX container, with the types of its answers, and what is proved of them; the reader is a crate
// of its own.
#![tactic(auto)]

use wire::Refusal;

// A part table, with room for 96 parts. Entries from count on are zero; a refusal has count 0.
// Where the reader was asked to count, counted is true and pairs is how many pairs of names the check of 9 compared, beside a refusal too; else
// it is 0. (Two fields for an enum: one that is no number is not written where it stands, and to build the table anew is to copy it.)
// Stays: C reads the table as it is, as qollqamir's CTable with fixed memory: so the count beside the arrays, and five arrays for one
// of structs; and the pairs stand beside a refusal too (clause of read_with, `table_asked`), which a Result has no place for.
// A name is its four bytes as one little-endian number; an occurrence is how many earlier parts bear the name, a gap how many bytes lie
// before the part's header, after the part before it or, for the first, after the offset table.
#[derive(Clone, Copy)]
pub struct Table {
    pub verdict: Result<(), Refusal>,
    pub count: usize,
    pub counted: bool,
    pub pairs: u32,
    pub names: [u32; 96],
    pub offsets: [u32; 96],
    pub sizes: [u32; 96],
    pub occurrences: [u32; 96],
    pub gaps: [u32; 96],
}

// A part found by its name: its number, where its header starts and its data size.
#[derive(Clone, Copy)]
pub struct Part {
    pub number: usize,
    pub offset: usize,
    pub size: usize,
}

// Three parts by their names, beside the number of parts. A part that is not there has 26.
#[derive(Clone, Copy)]
pub struct ThreeParts {
    pub count: usize,
    pub first: Result<Part, Refusal>,
    pub second: Result<Part, Refusal>,
    pub third: Result<Part, Refusal>,
}
