// The types of which the definitions of a settings file speak; the reader and the writer are crates of their own.
#![tactic(auto)]

// A number read in groups of seven bits: its value and how many bytes it takes.
#[derive(Clone, Copy)]
pub struct Number {
    pub value: u32,
    pub size: usize,
}

// A row of a settings file.
#[derive(Clone, Copy)]
pub struct Row {
    pub version: u32,
    pub key: u32,
    pub value: u32,
}

// What reading a file shows: the number of rows, and the byte where the first row begins.
#[derive(Clone, Copy)]
pub struct Settings {
    pub rows: usize,
    pub first: usize,
}

// A row by itself, with the byte where it ends.
#[derive(Clone, Copy)]
pub struct RowAlone {
    pub row: Row,
    pub end: usize,
}
