// The lines that the programs print, each built whole.
#![tactic(auto)]

ghost use Rattle.std.specs.Prelude.{◌≡◌, ◌++◌, ◌+◌, ◌≤◌, List, ℕ, length, take};
ghost use Rattle.io.specs.Counts.{IsPrefixLen};
ghost use Rattle.lines.specs.Number.{decimal};
ghost use Rattle.lines.specs.Line.{feed, numbers, accepted_line, refused_line, name_text, part_line, line_of};
ghost use Rattle.lines.specs.Line.{printable as Line·printable};

use wire::Refusal;

// A line: its bytes, zeros after them, and its length.
#[derive(Clone, Copy)]
pub struct Line {
    pub bytes: [u8; 64],
    pub len: usize,
}

// Puts bytes after a text that has room for them.
fn put(line: &mut Line, s: &[u8])
    requires { line.old.len + length s.now ≤ 64 }
    ensures line_after { (t : List ℕ) → line.old ≡ line_of t → line.new ≡ line_of (t ++ s.now) }
    ensures len_after { line.new.len ≡ line.old.len + length s.now }
{
    wire::put(&mut line.bytes, line.len, s);
    line.len += s.len();
}

// Puts a number's decimal digits.
fn put_number(line: &mut Line, n: usize)
    requires { line.old.len + 20 ≤ 64 }
    ensures line_after { (t : List ℕ) → line.old ≡ line_of t → line.new ≡ line_of (t ++ decimal n) }
    ensures len_after { line.new.len ≡ line.old.len + length (decimal n) }
    ensures n_len_bound { length (decimal n) ≤ 20 }
{
    let mut digits = [0; 20];
    let k = io::decimal(n as u64, &mut digits);
    put(line, &digits[..k]);
}

// Puts two numbers, with a space between them.
fn put_numbers(line: &mut Line, m: usize, n: usize)
    requires { line.old.len + 41 ≤ 64 }
    ensures line_after { (t : List ℕ) → line.old ≡ line_of t → line.new ≡ line_of (t ++ numbers m n) }
    ensures len_after { line.new.len ≡ line.old.len + length (numbers m n) }
    ensures n_len_bound { length (numbers m n) ≤ 41 }
{
    put_number(line, m);
    put(line, b" ");
    put_number(line, n);
}

// A word, two numbers and a line feed.
fn told(word: &[u8], m: usize, n: usize) -> Line
    requires { length word.now ≤ 22 }
    ensures value { result ≡ line_of ((word.now ++ numbers m n) ++ feed) }
    ensures len_bound { result.len ≤ 64 }
    ensures prefix_len { IsPrefixLen result.len result.bytes }
    ensures shown { take result.len result.bytes ≡ (word.now ++ numbers m n) ++ feed }
{
    let bytes = [0; 64];
    let mut line = Line { bytes, len: 0 };
    put(&mut line, word);
    put_numbers(&mut line, m, n);
    put(&mut line, b"\n");
    line
}

// `accepted`, the file's edition and the number of parts.
#[tactic(auto, unfolding(crate::specs::Line::accepted_line))]
pub fn accepted(edition: usize, parts: usize) -> Line
    ensures value { result ≡ line_of (accepted_line edition parts) }
    ensures len_bound { result.len ≤ 64 }
    ensures prefix_len { IsPrefixLen result.len result.bytes }
    ensures shown { take result.len result.bytes ≡ accepted_line edition parts }
{
    told(b"accepted ", edition, parts)
}

// `refused`, the number and the place.
#[tactic(auto, unfolding(crate::specs::Line::refused_line))]
pub fn refused(r: Refusal) -> Line
    ensures value { result ≡ line_of (refused_line r.number r.place) }
    ensures len_bound { result.len ≤ 64 }
    ensures prefix_len { IsPrefixLen result.len result.bytes }
    ensures shown { take result.len result.bytes ≡ refused_line r.number r.place }
{
    told(b"refused ", usize::from(r.number), r.place)
}

// A name's byte, or `?` where it is outside 33 to 126.
#[tactic(auto, unfolding(crate::specs::Line::printable))]
fn printable(c: u8) -> u8
    ensures { result ≡ Line·printable c }
{
    match c {
        33..=126 => c,
        _ => b'?',
    }
}

// A name, given as its number: the four bytes, least first.
#[tactic(auto, unfolding(crate::specs::Line::name_text))]
fn name(x: u32) -> [u8; 4]
    ensures { result ≡ name_text x }
{
    let [a, b, c, d] = x.to_le_bytes();
    [printable(a), printable(b), printable(c), printable(d)]
}

// A part: its name, where its header starts, its data size, and whether the name is known.
pub fn part(x: u32, offset: u32, size: u32) -> Line
    ensures value { result ≡ line_of (part_line x offset size) }
    ensures len_bound { result.len ≤ 64 }
    ensures prefix_len { IsPrefixLen result.len result.bytes }
    ensures shown { take result.len result.bytes ≡ part_line x offset size }
{
    let bytes = [0; 64];
    let mut line = Line { bytes, len: 0 };
    put(&mut line, &name(x));
    put(&mut line, b" ");
    put_numbers(&mut line, offset as usize, size as usize);
    if constants::known_name(x) {
        put(&mut line, b" known\n");
    } else {
        put(&mut line, b" unknown\n");
    }
    line
}
