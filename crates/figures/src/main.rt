// figures FILE..: opens containers of at most 65,536 bytes one by one at edition 1, and prints how many were opened, accepted and refused, and
// the counts by refusal number, by the file's edition and by stage.
#![tactic(auto)]

ghost use Rattle.std.specs.Prelude.{◌≤◌};

use arguments::FileError;
use figures_layout::{Figures, Full};
use printing::{number, pair, text};

// A line of a word and a number.
fn line(word: &[u8], n: usize) {
    text(word);
    number(n);
    text(b"\n");
}

fn add(f: Figures, i: usize, b: &[u8]) -> Figures {
    match figures_counter::add(f, b) {
        Ok(a) => a.figures,
        Err(Full) => {
            line(b"full ", i);
            f
        }
    }
}

// The file that an argument names. Files are counted from 0, arguments from the program's own name.
fn add_file(rt: &HostRuntime, f: Figures, argument: usize, buffer: &mut [u8]) -> Figures
    requires { 1 ≤ argument }
{
    let i = argument - 1;
    match arguments::file(rt, argument, buffer) {
        Ok(b) => return add(f, i, b),
        Err(FileError::TooLong) => line(b"too long ", i),
        Err(FileError::CannotOpen) => line(b"cannot open ", i),
    }
    f
}

// The counts above zero, numbers rising.
fn counts(word: &[u8], table: &[u16]) {
    for (i, n) in table.iter().enumerate() {
        if 0 < *n {
            text(word);
            number(i);
            pair(b" ", *n);
            text(b"\n");
        }
    }
}

fn totals(f: Figures) {
    pair(b"opened ", f.opened);
    pair(b" accepted ", f.accepted);
    pair(b" refused ", f.refused);
    text(b" bytes ");
    number(f.bytes as usize);
    text(b"\n");
}

fn show(f: Figures) {
    totals(f);
    if f.opened == 0 {
        text(b"nothing was opened\n");
        return;
    }
    counts(b"refusal ", &f.refusals);
    counts(b"edition ", &f.editions);
    counts(b"stage ", &f.stages);
    if 0 < f.unset {
        line(b"stage unset ", usize::from(f.unset));
    }
}

fn main(rt: HostRuntime) {
    let mut buffer = io::large_buffer();
    let mut f = figures_counter::start(1);
    for argument in 1..arguments::count(&rt) {
        f = add_file(&rt, f, argument, &mut buffer);
    }
    show(f);
}
