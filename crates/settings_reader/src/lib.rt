// The reader of settings files: refusals 53 to 60, rows, and the value of a key at a version. No call keeps anything of a file: a question is
// answered in one walk over its rows.
#![tactic(auto)]

ghost use Rattle.std.specs.Prelude.{◌≡◌, ◌≤◌, ◌<◌, eqb, length, drop};
ghost use Rattle.wire.specs.Choice.{choose};
ghost use Rattle.wire.specs.Verdict.{under};
ghost use Rattle.settings_layout.specs.File.{number_judged, number_shown, rows_judged, rows_from};
ghost use Rattle.settings_layout.specs.Groups.{grouped, further, number};
ghost use Rattle.settings_layout.specs.Rules.{key_known, in_range, tells};
ghost use Rattle.settings_layout.specs.Shown.{settings_of, row_answer_of, setting_answer_of, row_alone_of};
ghost use Rattle.settings_reader.specs.Walk.{walked_by, walked_of};

use settings_layout::{Number, Row, RowAlone, Settings};
use wire::Refusal;

// A group that is not the last, before the others; or the refusal's number.
fn group(b: u8, rest: Number) -> Result<Number, u8>
    requires { (128 ≤ b) × (rest.size ≤ 4) }
    ensures { result ≡ grouped b (Ok rest) }
{
    let value = u64::from(b - 128) + 128 * u64::from(rest.value);
    match u32::try_from(value) {
        Ok(value) => Ok(Number {
            value,
            size: rest.size + 1,
        }),
        Err(_) => Err(54),
    }
}

// The groups after the first, k at most.
fn further_at(d: &[u8], at: usize, k: usize) -> Result<Number, u8>
    requires { k ≤ 4 }
    ensures { result ≡ further k (drop at d.now) }
{
    if k == 0 {
        return Err(54);
    }
    if d.len() <= at {
        return Err(55);
    }
    let b = d[at];
    if b < 128 {
        if b == 0 {
            return Err(53);
        }
        return Ok(Number {
            value: u32::from(b),
            size: 1,
        });
    }
    group(b, further_at(d, at + 1, k - 1)?)
}

// The number at a place, or the refusal's number.
fn groups_at(d: &[u8], at: usize) -> Result<Number, u8>
    ensures { result ≡ number (drop at d.now) }
{
    if d.len() <= at {
        return Err(55);
    }
    let b = d[at];
    if b < 128 {
        return Ok(Number {
            value: u32::from(b),
            size: 1,
        });
    }
    group(b, further_at(d, at + 1, 4)?)
}

// The number at a place.
fn number_at(d: &[u8], at: usize) -> Result<Number, Refusal>
    ensures { result ≡ under (number_judged at (drop at d.now)) (number_shown (drop at d.now)) }
{
    match groups_at(d, at) {
        Ok(n) => Ok(n),
        Err(number) => wire::refused(number, at),
    }
}

// Whether a key is one of those that are known.
pub fn key_known(key: u32) -> bool
    ensures { result ≡ key_known key }
{
    1 <= key && key <= 3
}

// Whether a value is in its key's range.
pub fn in_range(key: u32, value: u32) -> bool
    ensures { result ≡ in_range key value }
{
    match key {
        1 => value <= 3,
        3 => value <= 1,
        _ => true,
    }
}

// The row that begins at a byte, by itself, after a row of version last, 0 where it is the first. Whatever the bytes and numbers, it answers.
pub fn row_alone(d: &[u8], at: usize, last: u32) -> Result<RowAlone, Refusal>
    ensures { result ≡ row_alone_of d.now at last }
{
    let version = number_at(d, at)?;
    if version.value < last {
        return wire::refused(59, at);
    }
    let at_key = at + version.size;
    let key = number_at(d, at_key)?;
    if !key_known(key.value) {
        return wire::refused(57, at_key);
    }
    let at_value = at_key + key.size;
    let value = number_at(d, at_value)?;
    if !in_range(key.value, value.value) {
        return wire::refused(58, at_value);
    }
    Ok(RowAlone {
        row: Row {
            version: version.value,
            key: key.value,
            value: value.value,
        },
        end: at_value + value.size,
    })
}

// What a row leaves of a setting: its own value where it has the key and a version of at most the given one.
fn taken(setting: Option<u32>, row: &Row, key: u32, version: u32) -> Option<u32>
    ensures { result ≡ choose (tells key version row.now) (Some row.now.value) setting }
{
    if row.key == key && row.version <= version {
        Some(row.value)
    } else {
        setting
    }
}

// The answer to every question at once.
#[derive(Clone, Copy)]
struct Walked {
    settings: Settings,
    setting: Option<u32>,
    row: Option<Row>,
}

// The rows of a file, judged, the value of a key at a version, and row i.
fn walk(d: &[u8], settings: Settings, key: u32, version: u32, i: usize) -> Result<Walked, Refusal>
    requires { settings.first ≤ length d.now }
    ensures { let l = drop settings.first d.now in result ≡ under (rows_judged settings.rows 0 settings.first l) (walked_by settings key version i (rows_from settings.rows l)) }
{
    let mut last = 0;
    let mut at = settings.first;
    let mut setting = None;
    let mut row = None;
    for j in 0..settings.rows {
        let alone = row_alone(d, at, last)?;
        setting = taken(setting, &alone.row, key, version);
        // Picked here: as an argument and an answer the row was copied in other cuts than it was stored, and each copy waited for its store.
        if j == i {
            row = Some(alone.row);
        }
        last = alone.row.version;
        at = alone.end;
    }
    if at < d.len() {
        return wire::refused(60, at);
    }
    Ok(Walked {
        settings,
        setting,
        row,
    })
}

// The whole file.
fn walk_file(d: &[u8], key: u32, version: u32, i: usize) -> Result<Walked, Refusal>
    ensures { result ≡ walked_of d.now key version i }
{
    let count = number_at(d, 0)?;
    if 512 < count.value {
        return wire::refused(56, 0);
    }
    let settings = Settings {
        rows: count.value as usize,
        first: count.size,
    };
    walk(d, settings, key, version, i)
}

// The number of rows of a settings file, and where the first begins.
pub fn read(d: &[u8]) -> Result<Settings, Refusal>
    ensures { result ≡ settings_of d.now }
{
    Ok(walk_file(d, 0, 0, 0)?.settings)
}

// The value of a key at a version: that of the last row with the key and a version of at most the given one.
pub fn value(d: &[u8], key: u32, version: u32) -> Result<Option<u32>, Refusal>
    ensures { result ≡ setting_answer_of d.now key version }
{
    Ok(walk_file(d, key, version, 0)?.setting)
}

// Row i, 26 where there is none.
pub fn row(d: &[u8], i: usize) -> Result<Row, Refusal>
    ensures { result ≡ row_answer_of d.now i }
{
    match walk_file(d, 0, 0, i)?.row {
        Some(row) => Ok(row),
        None => wire::refused(26, 0),
    }
}
