// The writer of settings files: from rows, three numbers each, to bytes in the caller's output. Every check is made before the first byte is
// written.
#![tactic(auto)]

ghost use Rattle.std.specs.Prelude.{◌≡◌, ◌+◌, ◌%◌, ◌≤◌, ◌<◌, leb, length};
ghost use Rattle.std.proofs.lemmas.List.Edits.{sets};
ghost use Rattle.wire.specs.Verdict.{◌then◌, check, under};
ghost use Rattle.settings_layout.specs.Groups.{groups, in_groups, capacity};
ghost use Rattle.settings_layout.specs.Laid.{rows_laid};
ghost use Rattle.settings_layout.specs.Given.{written, writer_judged, Wrote};
ghost use Rattle.settings_layout.specs.Checked.{numbers_laid, width, row_width, row_given, all_given};
ghost use Rattle.settings_writer.specs.Rows.{rows_in};

use settings_layout::Row;
use wire::Refusal;

// How many bytes a number takes.
fn width_of(n: u32) -> usize
    ensures { (result ≡ width n) × (result ≤ 5) }
{
    if n < 128 {
        return 1;
    }
    if n < 16384 {
        return 2;
    }
    if n < 2097152 {
        return 3;
    }
    if n < 268435456 {
        return 4;
    }
    5
}

// The checks of a row that begins at a place of the result, after a row of version last; where the next row begins.
fn row_given(row: Row, last: u32, at: usize) -> Result<usize, Refusal>
    requires { at ≤ 100000 }
    ensures { result ≡ under (row_given last at row) (at + row_width row) }
{
    if row.version < last {
        return wire::refused(59, at);
    }
    let at_key = at + width_of(row.version);
    if !settings_reader::key_known(row.key) {
        return wire::refused(57, at_key);
    }
    let at_value = at_key + width_of(row.key);
    if !settings_reader::in_range(row.key, row.value) {
        return wire::refused(58, at_value);
    }
    Ok(at_value + width_of(row.value))
}

// The checks of all rows, the first of which begins at a place of the result; then 28.
fn judge_rows(rows: &[[u32; 3]], from: usize, room: usize) -> Result<usize, Refusal>
    requires { (length rows.now ≤ 512) × (from ≤ 5) }
    ensures { let l = rows_in rows.now in let end = from + length (rows_laid l) in result ≡ under (all_given 0 from l then check (leb end room) 28 0) end }
{
    let mut at = from;
    let mut last = 0;
    for &[version, key, value] in rows {
        let row = Row {
            version,
            key,
            value,
        };
        at = row_given(row, last, at)?;
        last = version;
    }
    if room < at {
        return wire::refused(28, 0);
    }
    Ok(at)
}

// Every check, in order: 27, what reading the result would give, 28. The answer is the result's length.
fn judge(numbers: &[u32], room: usize) -> Result<usize, Refusal>
    ensures { result ≡ under (writer_judged numbers.now room) (length (written numbers.now)) }
{
    let (rows, rest) = numbers.as_chunks::<3>();
    if !rest.is_empty() {
        return wire::refused(27, 0);
    }
    let Ok(count) = u32::try_from(rows.len()) else {
        return wire::refused(54, 0);
    };
    if 512 < count {
        return wire::refused(56, 0);
    }
    judge_rows(rows, width_of(count), room)
}

// Puts a number at a place, in k + 1 groups at most, and returns where it ends.
fn put_groups(out: &mut [u8], at: usize, n: u32, k: usize) -> usize
    requires { (at + length (groups k n) ≤ length out.old) × (n < capacity k) }
    ensures { (result ≡ at + length (groups k n)) × (out.new ≡ sets out.old at (groups k n)) }
{
    if n < 128 {
        out[at] = n as u8;
        return at + 1;
    }
    out[at] = (n % 128 + 128) as u8;
    put_groups(out, at + 1, n / 128, k - 1)
}

// Puts numbers one after the other from a place on.
fn put_numbers(out: &mut [u8], from: usize, numbers: &[u32])
    requires { from + length (numbers_laid numbers.now) ≤ length out.old }
    ensures { out.new ≡ sets out.old from (numbers_laid numbers.now) }
{
    let mut at = from;
    for n in numbers {
        at = put_groups(out, at, *n, 4);
    }
}

// Writes rows, three numbers each, version, key and value, as a settings file into the output, and answers its length. Refusals, in order: 27 where they aren't whole
// rows, what reading the result would give, with that place, 28. A refusal leaves every byte of the output, and bytes past the result keep
// their contents.
pub fn write(rows: &[u32], out: &mut [u8]) -> Result<usize, Refusal>
    ensures { Wrote rows.now out.old result out.new }
{
    let len = judge(rows, out.len())?;
    let count = (rows.len() / 3) as u32;
    let at = put_groups(out, 0, count, 4);
    put_numbers(out, at, rows);
    Ok(len)
}
