// The part table of a DirectX container: refusals 1 to 9, every part's name, header offset, data size, occurrence and gap, and lookup by
// name and occurrence.
#![tactic(auto)]

ghost use Rattle.std.specs.Prelude.{◌≡◌, ◌+◌, ◌≤◌, ◌<◌, get_or, length};
ghost use Rattle.constants.specs.Name.{is_known};
ghost use Rattle.wire.specs.Number.{u32_at};
ghost use Rattle.wire.specs.Choice.{choose};
ghost use Rattle.wire.specs.Search.{first};
ghost use Rattle.wire.specs.Verdict.{Refused, each, under, verdict_of};
ghost use Rattle.part_table_layout.specs.Lookup.{found_below, found_in, occurrence_named, occurrence_in, occurrence_listed, later_part, part_in, part_at, occurrence_of, occurrence_data, part_of, data_of};
ghost use Rattle.part_table_layout.specs.Pairs.{ends, pairs_from, pairs_if, table_asked};
ghost use Rattle.part_table_layout.specs.Table.{count_of, offset_at, name_at, size_at, earliest, part_judged, stood_earlier, may_repeat, may_stand, name_judged, header_judged, parts_judged, filled, refused_table, table_if, table_of};
ghost use Rattle.part_table_layout.specs.Three.{three_shown, three_if, three_of};

use part_table_layout::{Part, Table, ThreeParts};
use wire::Refusal;

// A name's number: its four bytes, little-endian.
pub fn name_number(name: &[u8; 4]) -> u32
    ensures { result ≡ u32_at name.now 0 }
{
    wire::u32_at(name, 0)
}

// Whether a name is one of the 24 that are known.
pub fn known(name: &[u8; 4]) -> bool
    ensures { result ≡ is_known (u32_at name.now 0) }
{
    constants::known_name(wire::u32_at(name, 0))
}

// The checks of the fixed header and of the offset table's length: refusals 1 to 7. Size and count are read together: read after one test
// more, the count was left as a call when compiled.
fn judge_header(b: &[u8]) -> Result<(), Refusal>
    ensures { result ≡ under (header_judged b.now) tt }
{
    let len = b.len();
    if len < 32 {
        return wire::refused(1, 0);
    }
    if 16777216 < len {
        return wire::refused(2, 0);
    }
    if wire::u32_at(b, 0) != wire::u32_at(b"DXBC", 0) {
        return wire::refused(3, 0);
    }
    if wire::u16_at(b, 20) != 1 || wire::u16_at(b, 22) != 0 {
        return wire::refused(4, 0);
    }
    let stated = wire::u32_at(b, 24) as usize;
    let n = wire::u32_at(b, 28) as usize;
    if stated != len {
        return wire::refused(5, 0);
    }
    if 96 < n {
        return wire::refused(6, 0);
    }
    if len < 32 + 4 * n {
        return wire::refused(7, 0);
    }
    Ok(())
}

// A table with no entries: what a refusal shows, and what a reading starts from.
fn empty(verdict: Result<(), Refusal>, counting: bool, pairs: u32) -> Table
    ensures { result ≡ refused_table counting pairs (verdict_of verdict) }
{
    Table {
        verdict,
        count: 0,
        counted: counting,
        pairs,
        names: [0u32; 96],
        offsets: [0u32; 96],
        sizes: [0u32; 96],
        occurrences: [0u32; 96],
        gaps: [0u32; 96],
    }
}

// The table of a refusal.
fn refused(r: Refusal, counting: bool, pairs: u32) -> Table
    ensures { result ≡ refused_table counting pairs (Refused r.number r.place) }
{
    empty(Err(r), counting, pairs)
}

// Whether a name may stand more than once.
pub fn may_repeat(x: u32) -> bool
    ensures { result ≡ may_repeat x }
{
    x == wire::u32_at(b"PRIV", 0)
}

// The part of a table, given by its names and its count, that has a name's number and an occurrence. No more than 96 names are looked at.
// This is the one search by name: every lookup goes through it.
// Stays: an array and a count, since a slice would ask of callers that the count is at most 96 (clause of find_occurrence, find_name).
pub fn find_occurrence(names: &[u32; 96], count: usize, x: u32, occurrence: usize) -> Option<usize>
    ensures { result ≡ occurrence_in names.now count x occurrence }
{
    let n = count.min(96);
    let mut left = occurrence;
    for i in 0..n {
        if names[i] == x {
            if left == 0 {
                return Some(i);
            }
            left -= 1;
        }
    }
    None
}

// The first part that has a name's number.
pub fn find_name(names: &[u32; 96], count: usize, x: u32) -> Option<usize>
    ensures { result ≡ found_in names.now count x }
{
    find_occurrence(names, count, x, 0)
}

// Whether x is one of the names. All are looked at.
// Stays: a loop and no `contains`, which has a way out: then the compiler compares one name at a time and not four (tried before: 8 parts 40 ns for 37).
fn stands(names: &[u32], x: u32) -> bool
    ensures { result ≡ stood_earlier (λ k. get_or names.now k 0) x (length names.now) }
{
    let mut hit = false;
    for name in names {
        if *name == x {
            hit = true;
        }
    }
    hit
}

// Whether a part with the name x may stand after those with the names.
fn may_stand(names: &[u32], x: u32) -> bool
    ensures { result ≡ may_stand (λ k. get_or names.now k 0) x (length names.now) }
{
    !stands(names, x) || may_repeat(x)
}

// No name that may not repeat stands twice: refusal 9.
pub fn judge_names(names: &[u32]) -> Result<(), Refusal>
    ensures { result ≡ under (each (name_judged (λ k. get_or names.now k 0)) (length names.now)) tt }
{
    for i in 0..names.len() {
        if !may_stand(&names[..i], names[i]) {
            return wire::refused(9, i);
        }
    }
    Ok(())
}

// What 9 gives, and how many pairs of names were compared for it.
// Stays: two fields, since the pairs stand beside a refusal too (`table_asked`), which a Result has no place for.
#[derive(Clone, Copy)]
struct Compared {
    judged: Result<(), Refusal>,
    pairs: u32,
}

// The name x compared with the names, in order: the number of the one that ends the walk.
fn walk(names: &[u32], x: u32) -> Option<usize>
    ensures { result ≡ found_below (length names.now) (first (ends (λ k. get_or names.now k 0) x) (length names.now)) }
{
    let repeats = may_repeat(x);
    names.iter().position(|name| *name == x && !repeats)
}

// As judge_names, one pair after the other up to the first match, and counted. A table with many names takes longer so, since the compiler
// compares fewer at once.
fn compare_names(names: &[u32]) -> Compared
    requires { length names.now ≤ 96 }
    ensures { (result.judged ≡ under (each (name_judged (λ k. get_or names.now k 0)) (length names.now)) tt) × (result.pairs ≡ pairs_from (λ k. get_or names.now k 0) 0 (length names.now)) }
{
    let mut pairs = 0;
    for k in 0..names.len() {
        if let Some(j) = walk(&names[..k], names[k]) {
            return Compared {
                judged: wire::refused(9, k),
                pairs: pairs + j as u32 + 1,
            };
        }
        pairs += k as u32;
    }
    Compared {
        judged: Ok(()),
        pairs,
    }
}

// 9, with the pairs counted for who asks.
fn check_names(names: &[u32], counting: bool) -> Compared
    requires { length names.now ≤ 96 }
    ensures { (result.judged ≡ under (each (name_judged (λ k. get_or names.now k 0)) (length names.now)) tt) × (result.pairs ≡ choose counting (pairs_from (λ k. get_or names.now k 0) 0 (length names.now)) 0) }
{
    if counting {
        return compare_names(names);
    }
    Compared {
        judged: judge_names(names),
        pairs: 0,
    }
}

// A part's header.
#[derive(Clone, Copy)]
struct PartHeader {
    offset: u32,
    size: u32,
}

// The header of part i, which may not start before the end of what stands before it: refusal 8.
fn part_header(b: &[u8], i: usize, end: usize) -> Result<PartHeader, Refusal>
    requires { (i < 96) × (end ≡ earliest b.now i) }
    ensures { result ≡ under (part_judged b.now i) (record { offset = offset_at b.now i; size = size_at b.now i }) }
{
    let len = b.len();
    let offset = wire::u32_at(b, 32 + 4 * i);
    let at = offset as usize;
    if at < end || len < at + 8 {
        return wire::refused(8, i);
    }
    let size = wire::u32_at(b, at + 4);
    if len < at + 8 + size as usize {
        return wire::refused(8, i);
    }
    Ok(PartHeader { offset, size })
}

// The occurrence of a part with the name x, after so many parts whose names may repeat: only one name may.
fn occurrence_after(x: u32, repeats: u32) -> u32
    ensures { result ≡ choose (may_repeat x) repeats 0 }
{
    if may_repeat(x) { repeats } else { 0 }
}

// How many parts' names may repeat, with one more part, whose name is x.
fn repeats_with(x: u32, repeats: u32) -> u32
    requires { repeats ≤ 96 }
    ensures { result ≡ repeats + choose (may_repeat x) 1 0 }
{
    repeats + u32::from(may_repeat(x))
}

// The headers of the parts, read up to the first that 8 refuses; then 9. Occurrences come from one running counter. The table is filled
// where it stands: a copy of it costs as much as reading some ten parts.
fn read_parts(b: &[u8], count: usize, counting: bool) -> Table
    requires { (count ≡ count_of b.now) × (count ≤ 96) }
    ensures { result ≡ table_if counting (choose counting (pairs_if (each (part_judged b.now) (count_of b.now)) b.now) 0) (parts_judged b.now) b.now }
{
    let mut t = empty(Ok(()), counting, 0);
    t.count = count;
    let mut end = 32 + 4 * count;
    let mut repeats = 0;
    for i in 0..count {
        let h = match part_header(b, i, end) {
            Ok(h) => h,
            Err(r) => return refused(r, counting, 0),
        };
        let at = h.offset as usize;
        let x = wire::u32_at(b, at);
        t.names[i] = x;
        t.offsets[i] = h.offset;
        t.sizes[i] = h.size;
        t.occurrences[i] = occurrence_after(x, repeats);
        t.gaps[i] = (at - end) as u32;
        repeats = repeats_with(x, repeats);
        end = at + 8 + h.size as usize;
    }
    let c = check_names(&t.names[..count], counting);
    if let Err(r) = c.judged {
        return refused(r, counting, c.pairs);
    }
    t.pairs = c.pairs;
    t
}

// The part table of a container, or its refusal, 1 to 9; beside it, for who asks, how many pairs of names were compared.
pub fn read_with(b: &[u8], counting: bool) -> Table
    ensures { result ≡ table_asked counting b.now }
{
    if let Err(r) = judge_header(b) {
        return refused(r, counting, 0);
    }
    read_parts(b, wire::u32_at(b, 28) as usize, counting)
}

// The part table for who doesn't ask: each name is compared with all before it, also past a match, and several at once.
pub fn read(b: &[u8]) -> Table
    ensures { result ≡ table_of b.now }
{
    read_with(b, false)
}

// The part with a name and an occurrence in a table that was read: the table's refusal, or 26 where there is no such part.
pub fn part_in(t: Table, name: &[u8; 4], occurrence: usize) -> Result<Part, Refusal>
    ensures { result ≡ part_in t (u32_at name.now 0) occurrence }
{
    t.verdict?;
    match find_occurrence(&t.names, t.count, wire::u32_at(name, 0), occurrence) {
        None => wire::refused(26, 0),
        Some(k) => Ok(Part {
            number: k,
            offset: t.offsets[k] as usize,
            size: t.sizes[k] as usize,
        }),
    }
}

// The part of a file with a name and an occurrence, among the names of its first parts. Offset and size are read of the file.
fn listed(
    b: &[u8],
    names: &[u32; 96],
    count: usize,
    x: u32,
    occurrence: usize,
) -> Result<Part, Refusal>
    requires { (count ≤ 96) × (names.now ≡ filled (name_at b.now) count) }
    ensures { result ≡ part_at b.now (occurrence_named (name_at b.now) count x occurrence) }
{
    match find_occurrence(names, count, x, occurrence) {
        None => wire::refused(26, 0),
        Some(k) => {
            let at = wire::u32_at(b, 32 + 4 * k) as usize;
            Ok(Part {
                number: k,
                offset: at,
                size: wire::u32_at(b, at + 4) as usize,
            })
        }
    }
}

// Three parts of a file, among the names that were read of it. The third is searched only where its name is not the second again.
fn all_listed(b: &[u8], names: &[u32; 96], count: usize, x: u32, y: u32, z: u32) -> ThreeParts
    requires { (count ≡ count_of b.now) × (count ≤ 96) × (names.now ≡ filled (name_at b.now) count) }
    ensures { result ≡ three_shown b.now x y z }
{
    let first = listed(b, names, count, x, 0);
    let second = listed(b, names, count, y, 0);
    let third = if y == z {
        second
    } else {
        listed(b, names, count, z, 0)
    };
    ThreeParts {
        count,
        first,
        second,
        third,
    }
}

// As read_parts, with the names alone kept.
// Stays: two loops, since one walk for both would take closures, whose contract would say again what the two invariants say: no plainer.
fn find_parts(b: &[u8], count: usize, x: u32, y: u32, z: u32) -> Result<ThreeParts, Refusal>
    requires { (count ≡ count_of b.now) × (count ≤ 96) }
    ensures { result ≡ three_if (parts_judged b.now) b.now x y z }
{
    let mut names = [0u32; 96];
    let mut end = 32 + 4 * count;
    for k in 0..count {
        let h = part_header(b, k, end)?;
        let at = h.offset as usize;
        end = at + 8 + h.size as usize;
        names[k] = wire::u32_at(b, at);
    }
    judge_names(&names[..count])?;
    Ok(all_listed(b, &names, count, x, y, z))
}

// Stays: three names one by one, as docs/ARCHITECTURE.md names this call (a).
// Refusals 1 to 9, and the first parts with three names. No table is built, and the names are cleared only once the header has passed. Who
// wants fewer parts says a name again.
pub fn three_parts(b: &[u8], x: u32, y: u32, z: u32) -> Result<ThreeParts, Refusal>
    ensures { result ≡ three_of b.now x y z }
{
    judge_header(b)?;
    find_parts(b, wire::u32_at(b, 28) as usize, x, y, z)
}

// The first part with a name: the table's refusal, or 26 where no part has the name.
pub fn find_part(b: &[u8], name: &[u8; 4]) -> Result<Part, Refusal>
    ensures { result ≡ part_of b.now (u32_at name.now 0) }
{
    let x = wire::u32_at(name, 0);
    three_parts(b, x, x, x)?.first
}

// The names of the first parts that a file lists; nothing is judged.
fn names_listed(b: &[u8], count: usize) -> [u32; 96]
    requires { count ≤ 96 }
    ensures { result ≡ filled (name_at b.now) count }
{
    let mut names = [0u32; 96];
    for k in 0..count {
        let at = wire::u32_at(b, 32 + 4 * k) as usize;
        names[k] = wire::u32_at(b, at);
    }
    names
}

// The part with a name and an occurrence among the parts that a file lists, of which no more than 96 count.
fn search_again(b: &[u8], x: u32, occurrence: usize) -> Result<Part, Refusal>
    ensures { result ≡ part_at b.now (occurrence_listed b.now x occurrence) }
{
    let count = (wire::u32_at(b, 28) as usize).min(96);
    let names = names_listed(b, count);
    listed(b, &names, count, x, occurrence)
}

// The part with a name and an occurrence, where the first with that name was looked up: its refusal, or 26 where there is no such part. An
// opening finds first parts alone, so a further one is searched only when it is asked for.
pub fn later_part(
    b: &[u8],
    x: u32,
    first: Result<Part, Refusal>,
    occurrence: usize,
) -> Result<Part, Refusal>
    ensures { result ≡ later_part b.now x occurrence first }
{
    if occurrence == 0 {
        return first;
    }
    first?;
    search_again(b, x, occurrence)
}

// The part with a name and an occurrence: the table's refusal, or 26 where there is no such part.
pub fn find_part_occurrence(b: &[u8], name: &[u8; 4], occurrence: usize) -> Result<Part, Refusal>
    ensures { result ≡ occurrence_of b.now (u32_at name.now 0) occurrence }
{
    later_part(b, wire::u32_at(name, 0), find_part(b, name), occurrence)
}

// The data of the part with a name and an occurrence, a part of the caller's slice: no bytes where the lookup refuses.
pub fn part_data_occurrence<'a>(b: &'a [u8], name: &[u8; 4], occurrence: usize) -> &'a [u8]
    ensures { result.now ≡ occurrence_data b.now (u32_at name.now 0) occurrence }
{
    match find_part_occurrence(b, name, occurrence) {
        Err(_) => &b[0..0],
        Ok(p) => {
            let start = p.offset + 8;
            &b[start..start + p.size]
        }
    }
}

// The data of the first part with a name.
pub fn part_data<'a>(b: &'a [u8], name: &[u8; 4]) -> &'a [u8]
    ensures { result.now ≡ data_of b.now (u32_at name.now 0) }
{
    part_data_occurrence(b, name, 0)
}
