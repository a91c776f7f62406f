// settings VERSION FILE: prints the rows of a settings file of at most 65,536 bytes, and what it settles at a version.
#![tactic(auto)]

use arguments::FileError;
use printing::{number, pair, text, value};
use settings_layout::{Row, Settings};
use wire::Refusal;

fn row(i: usize, row: Row) {
    text(b"row ");
    number(i);
    pair(b" version ", row.version);
    pair(b" key ", row.key);
    pair(b" value ", row.value);
    text(b"\n");
}

// The rows of a file that is accepted, each by itself, so that the file is judged once.
fn rows(d: &[u8], settings: Settings) -> Result<(), Refusal> {
    let mut at = settings.first;
    let mut last = 0;
    for i in 0..settings.rows {
        let alone = settings_reader::row_alone(d, at, last)?;
        row(i, alone.row);
        at = alone.end;
        last = alone.row.version;
    }
    Ok(())
}

fn setting(name: &[u8], setting: Option<u32>) {
    text(name);
    value(setting);
    text(b"\n");
}

fn all(d: &[u8], version: u32) -> Result<(), Refusal> {
    let settings = settings_reader::read(d)?;
    text(b"rows ");
    number(settings.rows);
    text(b"\n");
    rows(d, settings)?;
    setting(b"least_edition ", settings_reader::value(d, 1, version)?);
    setting(b"greatest_length ", settings_reader::value(d, 2, version)?);
    setting(b"private_allowed ", settings_reader::value(d, 3, version)?);
    Ok(())
}

fn show(d: &[u8], version: u32) {
    if let Err(r) = all(d, version) {
        printing::refusal(r);
    }
}

fn show_file(rt: &HostRuntime, version: u32) {
    let mut buffer = io::large_buffer();
    match arguments::file(rt, 2, &mut buffer) {
        Ok(d) => show(d, version),
        Err(FileError::TooLong) => text(b"too long\n"),
        Err(FileError::CannotOpen) => text(b"cannot open\n"),
    }
}

fn usage() {
    text(b"usage: settings VERSION FILE\n");
}

fn main(rt: HostRuntime) {
    // The program's own name counts as an argument.
    if arguments::count(&rt) != 3 {
        usage();
        return;
    }
    match arguments::number(&rt, 1) {
        Ok(version) => show_file(&rt, version),
        Err(_) => usage(),
    }
}
