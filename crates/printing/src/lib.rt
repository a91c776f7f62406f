// What the programs write to standard output.
#![tactic(auto)]

use wire::Refusal;

// Standard output.
const STDOUT_FILENO: i32 = 1;

// Stays: (d) `print!` would take the runtime through every function and a result out of each, and what is shown of a file are bytes, not text.
pub fn text(s: &[u8]) {
    io::write_all(STDOUT_FILENO, s);
}

pub fn number(n: usize) {
    io::print_decimal(STDOUT_FILENO, n as u64);
}

// A number in lower-case hex digits, with zeros in front up to a width.
pub fn hex(n: u32, width: usize) {
    io::print_hex(STDOUT_FILENO, u64::from(n), width);
}

// A word and a number.
pub fn pair(word: &[u8], n: impl Into<u32>) {
    text(word);
    number(n.into() as usize);
}

// A value that may be unset.
pub fn value(f: Option<u32>) {
    match f {
        Some(n) => number(n as usize),
        None => text(b"unset"),
    }
}

// A part, for more to follow on its line: its name, where its header starts, its data size, and whether the name is known.
pub fn part(x: u32, offset: u32, size: u32) {
    let line = lines::part(x, offset, size);
    if let [shown @ .., _] = &line.bytes[..line.len] {
        text(shown);
    }
}

// A refusal's line: its number and place.
pub fn refusal(r: Refusal) {
    let line = lines::refused(r);
    text(&line.bytes[..line.len]);
}
