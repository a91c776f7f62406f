// What programs are started with: a number, and a file to read.
#![tactic(auto)]

ghost use Rattle.std.specs.Prelude.{◌≤◌, length, IfOk};

use std::env::{Env, FillError};
use std::fs::File;
use std::io::Read;
use std::os::fd::AsRawFd;
use words::WordError;

// Argument i, put at the start of the buffer: no bytes where it is missing or longer than the buffer.
fn argument<'a>(rt: &HostRuntime, i: usize, buf: &'a mut [u8]) -> &'a [u8]
    ensures { length result.now ≤ length buf.old }
{
    let len = rt.arg(i, buf).unwrap_or(0);
    &buf[..len]
}

// Whether there is an argument i. The program's own name is argument 0.
fn given(rt: &HostRuntime, i: usize) -> bool {
    !matches!(rt.arg(i, &mut []), Err(FillError::NotPresent))
}

// How many arguments there are, the program's own name among them.
pub fn count(rt: &HostRuntime) -> usize {
    for i in 0..usize::MAX {
        if !given(rt, i) {
            return i;
        }
    }
    usize::MAX
}

// The number that argument i names.
pub fn number(rt: &HostRuntime, i: usize) -> Result<u32, WordError> {
    // As long as the longest word that Linux hands over.
    let mut word = [0u8; 131072];
    words::number_of(argument(rt, i, &mut word))
}

// Why a file is not read.
#[derive(Clone, Copy, Debug, PartialEq, Eq)]
pub enum FileError {
    TooLong,
    CannotOpen,
}

// What an open file holds, where that is no longer than the buffer.
fn read_open<'a>(mut open: File, buf: &'a mut [u8]) -> Result<&'a [u8], FileError>
    ensures { IfOk result (λ d. length d.now ≤ length buf.old) }
{
    let len = io::read_full(open.as_raw_fd(), buf);
    // One read more tells the end from a byte too many, and from what can't be read.
    match open.read(&mut [0; 1]) {
        Ok(0) => Ok(&buf[..len]),
        Ok(_) => Err(FileError::TooLong),
        Err(_) => Err(FileError::CannotOpen),
    }
}

// Reads a file that is no longer than the buffer. What opens and can't be read, as a directory, counts as what can't be opened.
fn read<'a>(rt: &HostRuntime, path: &[u8], buf: &'a mut [u8]) -> Result<&'a [u8], FileError>
    ensures { IfOk result (λ d. length d.now ≤ length buf.old) }
{
    // A path is text for the library: a name that is not well-formed UTF-8 can't be opened.
    let Ok(name) = std::str::from_utf8(path) else {
        return Err(FileError::CannotOpen);
    };
    match File::open(rt, name) {
        Ok(open) => read_open(open, buf),
        Err(_) => Err(FileError::CannotOpen),
    }
}

// The file whose name is argument i, put at the start of the buffer.
pub fn file<'a>(rt: &HostRuntime, i: usize, buf: &'a mut [u8]) -> Result<&'a [u8], FileError>
    ensures { IfOk result (λ d. length d.now ≤ length buf.old) }
{
    let mut path = io::buffer();
    read(rt, argument(rt, i, &mut path), buf)
}
