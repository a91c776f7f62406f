// What the PSV0 writer answers at the edges of its refusals, and what it writes, read back: one line a case, compared with the file
// stdout. The output holds 512 bytes of 170, of which the writer is lent some.
#![tactic(auto)]

use printing::text;
use psv0_sections::Places;
use psv0_writer::Sections;
use runs::{either, number, refused, stretch};

// ---- printing

// Whether the bytes from a place on are as they were.
fn print_kept(out: &[u8; 512], at: usize) {
    let kept = out.iter().skip(at).all(|b| *b == 170);
    either(kept, b" kept", b" changed");
}

fn dump(s: &[u8]) {
    for b in s {
        number(*b as usize);
    }
    text(b"\n");
}

// ---- reading back

fn print_places(p: Places) {
    text(b" edition");
    number(p.edition);
    text(b" runtime");
    number(p.size);
    text(b" resources");
    number(p.resources);
    number(p.resource_count);
    number(p.resource_size);
    text(b" strings");
    number(p.strings);
    number(p.string_bytes);
    text(b" indices");
    number(p.indices);
    number(p.index_count);
    text(b" elements");
    number(p.elements);
    number(p.element_count);
    number(p.element_size);
    text(b" masks");
    number(p.masks);
    number(p.mask_bytes);
}

// Whether a section's bytes are those that were given.
fn same(d: &[u8], at: usize, given: &[u8]) -> bool {
    check::same(stretch(d, at, given.len()), given)
}

fn same_sections(d: &[u8], p: Places, given: Sections) -> bool {
    same(d, 4, given.runtime)
        && same(d, p.resources, given.resources)
        && same(d, p.strings, given.strings)
        && same(d, p.indices, given.indices)
        && same(d, p.elements, given.elements)
        && same(d, p.masks, given.masks)
}

fn read_back(d: &[u8], given: Sections) {
    match psv0_sections::locate(d, 3) {
        Err(r) => refused(r),
        Ok(p) => {
            print_places(p);
            either(same_sections(d, p, given), b" same", b" differs");
        }
    }
}

// ---- writing

// One case, in so many of the 512 bytes.
fn run(edition: usize, given: Sections, room: usize) {
    let mut out = [170u8; 512];
    match given.write(edition, &mut out[..room.min(512)]) {
        Err(r) => {
            refused(r);
            print_kept(&out, 0);
        }
        Ok(len) => {
            text(b" accepted");
            number(len);
            print_kept(&out, len);
            read_back(stretch(&out, 0, len), given);
        }
    }
    text(b"\n");
}

// ---- what is given

// A runtime record: stage, UsesViewID, byte 26, the three element counts, input vectors and output vectors.
fn record(stage: u8, view: u8, p: u8, counts: [u8; 3], u: u8, v: [u8; 4]) -> [u8; 52] {
    let mut r = [0u8; 52];
    r[24] = stage;
    r[25] = view;
    r[26] = p;
    r[28..31].copy_from_slice(&counts);
    r[31] = u;
    r[32..36].copy_from_slice(&v);
    r
}

// A record of a stage that has nothing else.
fn bare(stage: u8) -> [u8; 52] {
    record(stage, 0, 0, [0, 0, 0], 0, [0, 0, 0, 0])
}

// The same for a compute shader, with an entry name's offset.
fn named(name: u8) -> [u8; 52] {
    let mut r = bare(5);
    r[48] = name;
    r
}

// A vertex shader with three elements.
fn three() -> [u8; 52] {
    record(1, 0, 0, [1, 1, 1], 0, [0, 0, 0, 0])
}

// Three elements: the name offset, the index reference and the rows of each.
fn elements(names: [u8; 3], indices: [u8; 3], rows: [u8; 3]) -> [u8; 48] {
    let mut e = [0u8; 48];
    for i in 0..3 {
        e[16 * i] = names[i];
        e[16 * i + 4] = indices[i];
        e[16 * i + 8] = rows[i];
    }
    e[15] = 11;
    e
}

// Sections of these lengths: runtime, resources, strings, indices, elements, masks. The strings are a zero, `main` and three zeros, the
// indices 1 and 0.
fn case(edition: usize, r: &[u8; 52], e: &[u8; 48], n: [usize; 6], room: usize) {
    let s = [7u8; 96];
    let t = [0u8, 109, 97, 105, 110, 0, 0, 0];
    let x = [1u8, 0, 0, 0, 0, 0, 0, 0];
    let m = [9u8; 256];
    let given = Sections {
        runtime: stretch(r, 0, n[0]),
        resources: stretch(&s, 0, n[1]),
        strings: stretch(&t, 0, n[2]),
        indices: stretch(&x, 0, n[3]),
        elements: stretch(e, 0, n[4]),
        masks: stretch(&m, 0, n[5]),
    };
    run(edition, given, room);
}

// A case whose elements are good: names at 0, 1 and 5, arrays of two numbers, one, and none at the end of the table.
fn plain(edition: usize, r: [u8; 52], n: [usize; 6], room: usize) {
    let e = elements([0, 1, 5], [0, 1, 2], [2, 1, 0]);
    case(edition, &r, &e, n, room);
}

// ---- editions, and the output's length

fn editions() {
    text(b"edition 0:");
    plain(0, bare(0), [24, 0, 0, 0, 0, 0], 512);
    text(b"edition 0, 2 resources:");
    plain(0, bare(0), [24, 32, 0, 0, 0, 0], 512);
    text(b"edition 1:");
    plain(1, bare(1), [36, 0, 0, 0, 0, 0], 512);
    text(b"edition 1, every section:");
    plain(
        1,
        record(1, 1, 0, [1, 1, 0], 2, [9, 0, 0, 0]),
        [36, 32, 8, 8, 32, 72],
        512,
    );
    text(b"edition 2:");
    plain(2, bare(5), [48, 48, 8, 8, 0, 0], 512);
    text(b"edition 3:");
    plain(3, named(1), [52, 0, 8, 0, 0, 0], 512);
    text(b"edition 4:");
    plain(4, named(1), [52, 0, 8, 0, 0, 0], 512);
}

fn rooms() {
    text(b"68 of 512 bytes:");
    plain(0, bare(0), [24, 32, 0, 0, 0, 0], 512);
    text(b"68 of 69 bytes:");
    plain(0, bare(0), [24, 32, 0, 0, 0, 0], 69);
    text(b"68 of 68 bytes:");
    plain(0, bare(0), [24, 32, 0, 0, 0, 0], 68);
    text(b"68 of 67 bytes:");
    plain(0, bare(0), [24, 32, 0, 0, 0, 0], 67);
    text(b"76 of 76 bytes:");
    plain(3, named(1), [52, 0, 8, 0, 0, 0], 76);
    text(b"76 of 75 bytes:");
    plain(3, named(1), [52, 0, 8, 0, 0, 0], 75);
    text(b"52 of 0 bytes:");
    plain(1, bare(1), [36, 0, 0, 0, 0, 0], 0);
}

// ---- masks, by stage

fn masks(r: [u8; 52], n: usize) {
    plain(1, r, [36, 0, 0, 0, 0, n], 512);
}

fn stages() {
    text(b"vertex:");
    masks(record(1, 1, 9, [0, 0, 0], 1, [1, 0, 0, 0]), 20);
    text(b"vertex, masks of a hull shader:");
    masks(record(1, 1, 9, [0, 0, 0], 1, [1, 0, 0, 0]), 60);
    text(b"hull:");
    masks(record(3, 1, 9, [0, 0, 0], 1, [1, 0, 0, 0]), 60);
    text(b"hull, no view masks:");
    masks(record(3, 0, 9, [0, 0, 0], 1, [1, 0, 0, 0]), 48);
    text(b"domain:");
    masks(record(4, 1, 3, [0, 0, 0], 1, [9, 0, 0, 0]), 136);
    text(b"domain, 4 bytes less:");
    masks(record(4, 1, 3, [0, 0, 0], 1, [9, 0, 0, 0]), 132);
    text(b"domain, 4 bytes more:");
    masks(record(4, 1, 3, [0, 0, 0], 1, [9, 0, 0, 0]), 140);
    text(b"geometry:");
    masks(record(2, 0, 9, [0, 0, 0], 1, [8, 9, 0, 1]), 64);
    text(b"geometry, view masks:");
    masks(record(2, 1, 9, [0, 0, 0], 1, [8, 9, 0, 1]), 80);
    text(b"mesh:");
    masks(record(13, 1, 9, [0, 0, 0], 1, [1, 0, 0, 0]), 28);
}

// ---- 27

fn lengths() {
    text(b"runtime 24 at edition 1:");
    plain(1, bare(1), [24, 0, 0, 0, 0, 0], 512);
    text(b"runtime 48 at edition 1:");
    plain(1, bare(1), [48, 0, 0, 0, 0, 0], 512);
    text(b"runtime 52 at edition 2:");
    plain(2, bare(1), [52, 0, 0, 0, 0, 0], 512);
    text(b"resources 24 at edition 1:");
    plain(1, bare(1), [36, 24, 0, 0, 0, 0], 512);
    text(b"resources 16 at edition 2:");
    plain(2, bare(1), [48, 16, 0, 0, 0, 0], 512);
    text(b"resources 25 at edition 2:");
    plain(2, bare(1), [48, 25, 0, 0, 0, 0], 512);
    text(b"strings 5:");
    plain(1, bare(1), [36, 0, 5, 0, 0, 0], 512);
    text(b"indices 6:");
    plain(1, bare(1), [36, 0, 0, 6, 0, 0], 512);
    text(b"elements 32 of 48:");
    plain(1, three(), [36, 0, 8, 8, 32, 0], 512);
    text(b"elements 16 of 0:");
    plain(1, bare(1), [36, 0, 8, 8, 16, 0], 512);
    text(b"masks 4 of 0:");
    plain(1, bare(1), [36, 0, 0, 0, 0, 4], 512);
}

fn edition_0() {
    text(b"edition 0, strings:");
    plain(0, bare(0), [24, 0, 4, 0, 0, 0], 512);
    text(b"edition 0, indices:");
    plain(0, bare(0), [24, 0, 0, 4, 0, 0], 512);
    text(b"edition 0, elements:");
    plain(0, bare(0), [24, 0, 0, 0, 16, 0], 512);
    text(b"edition 0, masks:");
    plain(0, bare(0), [24, 0, 0, 0, 0, 4], 512);
}

// ---- 15 to 17

fn fields() {
    text(b"stage 15:");
    plain(1, bare(15), [36, 0, 0, 0, 0, 0], 512);
    text(b"stage 16:");
    plain(1, bare(16), [36, 0, 0, 0, 0, 0], 512);
    text(b"UsesViewID 2:");
    plain(
        1,
        record(1, 2, 0, [0, 0, 0], 1, [1, 0, 0, 0]),
        [36, 0, 0, 0, 0, 16],
        512,
    );
    text(b"UsesViewID 2, view masks:");
    plain(
        1,
        record(1, 2, 0, [0, 0, 0], 1, [1, 0, 0, 0]),
        [36, 0, 0, 0, 0, 20],
        512,
    );
    text(b"stream 1 of a vertex shader:");
    plain(
        1,
        record(1, 0, 0, [0, 0, 0], 1, [0, 1, 0, 0]),
        [36, 0, 0, 0, 0, 16],
        512,
    );
    text(b"stream 1 of a vertex shader, no masks:");
    plain(
        1,
        record(1, 0, 0, [0, 0, 0], 1, [0, 1, 0, 0]),
        [36, 0, 0, 0, 0, 0],
        512,
    );
    text(b"stream 3 of a compute shader:");
    plain(
        1,
        record(5, 0, 0, [0, 0, 0], 0, [0, 0, 0, 1]),
        [36, 0, 0, 0, 0, 0],
        512,
    );
    text(b"stream 3 of a geometry shader:");
    plain(
        1,
        record(2, 0, 0, [0, 0, 0], 0, [0, 0, 0, 1]),
        [36, 0, 0, 0, 0, 0],
        512,
    );
}

// ---- 22 to 24

fn references(names: [u8; 3], indices: [u8; 3], rows: [u8; 3]) {
    let r = three();
    let e = elements(names, indices, rows);
    case(1, &r, &e, [36, 0, 8, 8, 48, 0], 512);
}

fn element_references() {
    text(b"three elements:");
    references([0, 1, 7], [0, 1, 0], [1, 1, 2]);
    text(b"name 0:");
    references([8, 8, 8], [0, 0, 0], [1, 1, 1]);
    text(b"name 1:");
    references([7, 8, 0], [0, 0, 0], [1, 1, 1]);
    text(b"name 2:");
    references([0, 0, 255], [0, 0, 0], [1, 1, 1]);
    text(b"index 0:");
    references([0, 0, 0], [2, 2, 2], [1, 1, 1]);
    text(b"index 2:");
    references([0, 0, 0], [0, 1, 2], [1, 1, 1]);
    text(b"name 1 and index 1:");
    references([0, 8, 0], [0, 2, 0], [1, 1, 1]);
    text(b"name 1 and index 0:");
    references([0, 8, 0], [2, 0, 0], [1, 1, 1]);
    text(b"no rows, at the end:");
    references([0, 0, 0], [2, 2, 2], [0, 0, 0]);
    text(b"no rows, one past the end:");
    references([0, 0, 0], [2, 3, 2], [0, 0, 0]);
    text(b"array to one past the end:");
    references([0, 0, 0], [0, 0, 1], [2, 1, 2]);
    text(b"rows 255:");
    references([0, 0, 0], [0, 0, 0], [2, 255, 0]);
    text(b"array past the indices:");
    plain(1, three(), [36, 0, 8, 4, 48, 0], 512);
}

fn entry_names() {
    text(b"entry name 5:");
    plain(3, named(5), [52, 0, 8, 0, 0, 0], 512);
    text(b"entry name 7:");
    plain(3, named(7), [52, 0, 8, 0, 0, 0], 512);
    text(b"entry name 8:");
    plain(3, named(8), [52, 0, 8, 0, 0, 0], 512);
    text(b"entry name 0, 4 bytes of strings:");
    plain(3, named(0), [52, 0, 4, 0, 0, 0], 512);
    text(b"entry name 1, 4 bytes of strings:");
    plain(3, named(1), [52, 0, 4, 0, 0, 0], 512);
    text(b"entry name 0, no strings:");
    plain(3, named(0), [52, 0, 0, 0, 0, 0], 512);
    text(b"entry name 8 at edition 2:");
    plain(2, named(8), [48, 0, 8, 0, 0, 0], 512);
}

// ---- two refusals at once

fn precedence() {
    text(b"25 and 27:");
    plain(4, bare(1), [36, 0, 5, 0, 0, 0], 512);
    text(b"25 and 28:");
    plain(4, bare(1), [36, 0, 0, 0, 0, 0], 0);
    text(b"27 and 15:");
    plain(1, bare(16), [36, 0, 0, 0, 0, 4], 512);
    text(b"27 and 28:");
    plain(1, bare(1), [36, 0, 5, 0, 0, 0], 0);
    text(b"15 and 16:");
    plain(
        1,
        record(16, 2, 0, [0, 0, 0], 0, [0, 0, 0, 0]),
        [36, 0, 0, 0, 0, 0],
        512,
    );
    text(b"15 and 28:");
    plain(1, bare(16), [36, 0, 0, 0, 0, 0], 0);
    text(b"16 and 17:");
    plain(
        1,
        record(1, 2, 0, [0, 0, 0], 0, [0, 1, 0, 0]),
        [36, 0, 0, 0, 0, 0],
        512,
    );
    text(b"17 and 22:");
    plain(
        1,
        record(1, 0, 0, [1, 0, 0], 0, [0, 1, 0, 0]),
        [36, 0, 0, 8, 16, 0],
        512,
    );
}

// An edition 3 record with an element and a bad entry name.
fn entry_and_element() -> [u8; 52] {
    let mut r = record(1, 0, 0, [0, 1, 0], 0, [0, 0, 0, 0]);
    r[48] = 8;
    r
}

fn later_precedence() {
    let r = entry_and_element();
    text(b"22 and 24:");
    let e = elements([8, 0, 0], [0, 0, 0], [1, 1, 1]);
    case(3, &r, &e, [52, 0, 8, 8, 16, 0], 512);
    text(b"23 and 24:");
    let f = elements([0, 0, 0], [2, 0, 0], [1, 1, 1]);
    case(3, &r, &f, [52, 0, 8, 8, 16, 0], 512);
    text(b"23 and 28:");
    case(3, &r, &f, [52, 0, 8, 8, 16, 0], 0);
    text(b"24 and 28:");
    plain(3, r, [52, 0, 8, 8, 16, 0], 0);
}

// ---- 2: resources, strings and indices from the same zeros, of 16,777,216 bytes with their counts and the record of edition 1

fn large(r: &[u8; 52], zeros: &[u8; 5592400], indices: usize) {
    let given = Sections {
        runtime: stretch(r, 0, 36),
        resources: zeros,
        strings: stretch(zeros, 0, 5592380),
        indices: stretch(zeros, 0, indices),
        elements: b"",
        masks: b"",
    };
    run(1, given, 512);
}

fn limit() {
    let zeros = [0u8; 5592400];
    let r = bare(1);
    let bad = bare(16);
    text(b"16777216 bytes:");
    large(&r, &zeros, 5592380);
    text(b"16777220 bytes:");
    large(&r, &zeros, 5592384);
    text(b"16777220 bytes, stage 16:");
    large(&bad, &zeros, 5592384);
    text(b"16777221 bytes:");
    large(&r, &zeros, 5592385);
}

// ---- bytes

fn bytes(edition: usize, runtime: &[u8], resources: &[u8], strings: &[u8]) {
    let mut out = [170u8; 512];
    let given = Sections {
        runtime,
        resources,
        strings,
        indices: b"",
        elements: b"",
        masks: b"",
    };
    match given.write(edition, &mut out) {
        Err(r) => refused(r),
        Ok(len) => dump(stretch(&out, 0, len)),
    }
}

fn all_bytes() {
    let r = [1u8; 24];
    text(b"bytes at edition 0:");
    bytes(0, &r, b"", b"");
    text(b"bytes with a resource:");
    bytes(0, &r, &[7u8; 16], b"");
    text(b"bytes at edition 3:");
    bytes(3, &named(1), b"", b"\x00main\x00\x00\x00");
}

fn main() {
    editions();
    rooms();
    stages();
    lengths();
    edition_0();
    fields();
    element_references();
    entry_names();
    precedence();
    later_precedence();
    limit();
    all_bytes();
}
