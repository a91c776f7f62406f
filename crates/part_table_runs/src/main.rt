// Containers at the edges of refusals 1 to 9, and lookups: one line a case, compared with the file stdout.
#![tactic(auto)]

use part_table_layout::{Part, Table};
use wire::Refusal;

// Standard output.
const STDOUT_FILENO: i32 = 1;

// ---- printing

fn print(s: &[u8]) {
    io::write_all(STDOUT_FILENO, s);
}

fn number(n: u64) {
    print(b" ");
    io::print_decimal(STDOUT_FILENO, n);
}

fn word(n: u32) {
    number(n as u64);
}

fn refused(r: Refusal) {
    print(b" refused");
    number(r.number as u64);
    number(r.place as u64);
}

// What a slice is read as: its number of parts, or its refusal, and the pairs of names that were compared.
fn verdict(b: &[u8]) {
    let t = part_table::read_with(b, true);
    match t.verdict {
        Err(r) => refused(r),
        Ok(()) => {
            print(b" accepted");
            number(t.count as u64);
        }
    }
    print(b" pairs");
    word(t.pairs);
    print(b"\n");
}

// The first n bytes of a slice.
fn front(s: &[u8], n: usize) -> &[u8] {
    if n <= s.len() {
        return &s[0..n];
    }
    s
}

fn read(b: &[u8; 2048], n: usize) {
    verdict(front(b, n));
}

// ---- building

fn put(b: &mut [u8; 2048], at: usize, n: u32) {
    wire::put_u32(b, at, n);
}

fn put_half(b: &mut [u8; 2048], at: usize, n: u16) {
    wire::put_u16(b, at, n);
}

// The fixed header of a container that is len bytes long and lists a number of parts.
fn header(b: &mut [u8; 2048], len: u32, parts: u32) {
    put(b, 0, wire::u32_at(b"DXBC", 0));
    put_half(b, 20, 1);
    put(b, 24, len);
    put(b, 28, parts);
}

// Part k, whose header starts at a place.
fn part(b: &mut [u8; 2048], k: u8, at: u32, name: u32, size: u32) {
    put(b, 32 + 4 * (k as usize), at);
    put(b, at as usize, name);
    put(b, at as usize + 4, size);
}

// 128 bytes: six parts named 1 to 6, of 4 bytes each, with no gap. Part k starts at 56 + 12k.
fn six(b: &mut [u8; 2048]) {
    header(b, 128, 6);
    part(b, 0, 56, 1, 4);
    part(b, 1, 68, 2, 4);
    part(b, 2, 80, 3, 4);
    part(b, 3, 92, 4, 4);
    part(b, 4, 104, 5, 4);
    part(b, 5, 116, 6, 4);
}

// Parts with no data, one after the other, named 1, 2 and so on: 32 + 12 bytes a part.
fn many(b: &mut [u8; 2048], parts: u8) {
    let n = parts as u32;
    header(b, 32 + 12 * n, n);
    for k in 0..parts {
        let at = 32 + 4 * n + 8 * (k as u32);
        part(b, k, at, k as u32 + 1, 0);
    }
}

// Box M of document 01: DXIL at 40 with 4 bytes, PSV0 at 52 with 32, 92 bytes in all.
fn box_m(b: &mut [u8; 2048]) {
    header(b, 92, 2);
    part(b, 0, 40, part_table::name_number(b"DXIL"), 4);
    put(b, 48, 67305985);
    part(b, 1, 52, part_table::name_number(b"PSV0"), 32);
    put(b, 60, 24);
}

// ---- 1 to 7

fn fixed_header() {
    let mut b = [0u8; 2048];
    header(&mut b, 31, 0);
    print(b"31 bytes:");
    read(&b, 31);
    header(&mut b, 32, 0);
    print(b"32 bytes:");
    read(&b, 32);
    put(&mut b, 0, wire::u32_at(b"DXBD", 0));
    print(b"magic DXBD:");
    read(&b, 32);
    header(&mut b, 32, 0);
    put_half(&mut b, 22, 1);
    print(b"version 1.1:");
    read(&b, 32);
    header(&mut b, 32, 0);
    put_half(&mut b, 20, 2);
    put_half(&mut b, 22, 0);
    print(b"version 2.0:");
    read(&b, 32);
}

fn sizes() {
    let mut b = [0u8; 2048];
    header(&mut b, 31, 0);
    print(b"file size 31 of 32:");
    read(&b, 32);
    header(&mut b, 33, 0);
    print(b"file size 33 of 32:");
    read(&b, 32);
    header(&mut b, 32, 97);
    print(b"97 parts in 32 bytes:");
    read(&b, 32);
    header(&mut b, 35, 1);
    print(b"1 part in 35 bytes:");
    read(&b, 35);
    header(&mut b, 36, 1);
    print(b"1 part in 36 bytes:");
    read(&b, 36);
}

fn counts() {
    let mut b = [0u8; 2048];
    many(&mut b, 96);
    print(b"96 parts:");
    read(&b, 1184);
    let mut more = [0u8; 2048];
    many(&mut more, 97);
    print(b"97 parts:");
    read(&more, 1196);
}

// ---- 8

// Part k of six starts one byte early.
fn early(k: u8) {
    let mut b = [0u8; 2048];
    six(&mut b);
    put(&mut b, 32 + 4 * (k as usize), 55 + 12 * (k as u32));
    print(b"early part");
    number(k as u64);
    print(b":");
    read(&b, 128);
}

// Part k of six has one byte more of data than it may.
fn longer(k: u8) {
    let mut b = [0u8; 2048];
    six(&mut b);
    put(&mut b, 60 + 12 * (k as usize), 5);
    print(b"longer part");
    number(k as u64);
    print(b":");
    read(&b, 128);
}

fn past_the_end() {
    let mut b = [0u8; 2048];
    header(&mut b, 44, 1);
    part(&mut b, 0, 36, 1, 0);
    print(b"header to the end:");
    read(&b, 44);
    header(&mut b, 43, 1);
    print(b"header past the end:");
    read(&b, 43);
    header(&mut b, 128, 1);
    put(&mut b, 32, 4294967295);
    print(b"greatest offset:");
    read(&b, 128);
    part(&mut b, 0, 36, 1, 4294967295);
    print(b"greatest size:");
    read(&b, 128);
    part(&mut b, 0, 36, 1, 84);
    print(b"data to the end:");
    read(&b, 128);
}

// ---- 9

// Part j of six has the name of part i.
fn same_name(i: u8, j: u8) {
    let mut b = [0u8; 2048];
    six(&mut b);
    put(&mut b, 56 + 12 * (j as usize), i as u32 + 1);
    print(b"names");
    number(i as u64);
    number(j as u64);
    print(b":");
    read(&b, 128);
}

fn two_pairs() {
    let mut b = [0u8; 2048];
    six(&mut b);
    put(&mut b, 80, 2);
    put(&mut b, 92, 1);
    print(b"names 1 2 and 0 3:");
    read(&b, 128);
    put(&mut b, 52, 115);
    print(b"the same, early part 5:");
    read(&b, 128);
}

// ---- what is shown

fn entry(t: Table, k: usize) {
    if k < 96 {
        print(b"entry");
        number(k as u64);
        print(b":");
        word(t.names[k]);
        word(t.offsets[k]);
        word(t.sizes[k]);
        word(t.occurrences[k]);
        word(t.gaps[k]);
        print(b"\n");
    }
}

// Whether a table that was read has its pairs counted, and their number.
fn pairs(t: Table) {
    if t.counted {
        print(b"counted:");
    } else {
        print(b"not counted:");
    }
    word(t.pairs);
    print(b"\n");
}

fn table(b: &[u8; 2048], n: usize) -> Table {
    part_table::read(front(b, n))
}

fn counted(b: &[u8; 2048], n: usize) -> Table {
    part_table::read_with(front(b, n), true)
}

fn entries() {
    let mut b = [0u8; 2048];
    many(&mut b, 2);
    let t = table(&b, 56);
    entry(t, 0);
    entry(t, 1);
    entry(t, 2);
    entry(t, 95);
    pairs(t);
    pairs(counted(&b, 56));
    put(&mut b, 48, 1);
    let r = table(&b, 56);
    print(b"refused:");
    number(r.count as u64);
    print(b"\n");
    entry(r, 0);
    pairs(r);
    pairs(counted(&b, 56));
}

fn bytes(b: &[u8]) {
    print(b"data");
    number(b.len() as u64);
    print(b":");
    word(wire::u32_at(b, 0));
    print(b"\n");
}

// A part that was looked up: its number, header offset and data size.
fn found(part: Result<Part, Refusal>) {
    match part {
        Err(r) => refused(r),
        Ok(p) => {
            print(b" part");
            number(p.number as u64);
            number(p.offset as u64);
            number(p.size as u64);
        }
    }
    print(b"\n");
}

// The part with a name in the first n bytes, and its data.
fn lookup(b: &[u8; 2048], n: usize, name: &[u8; 4]) {
    print(name);
    print(b":");
    found(part_table::find_part(front(b, n), name));
    bytes(part_table::part_data(front(b, n), name));
}

// The same with an occurrence, and in the table that was read.
fn occurrence(b: &[u8; 2048], n: usize, name: &[u8; 4], o: usize) {
    print(name);
    number(o as u64);
    print(b":");
    found(part_table::find_part_occurrence(front(b, n), name, o));
    bytes(part_table::part_data_occurrence(front(b, n), name, o));
    print(b"in the table:");
    found(part_table::part_in(table(b, n), name, o));
}

fn lookups() {
    let mut b = [0u8; 2048];
    box_m(&mut b);
    print(b"box M:");
    read(&b, 92);
    lookup(&b, 92, b"DXIL");
    lookup(&b, 92, b"PSV0");
    lookup(&b, 92, b"HASH");
    lookup(&b, 91, b"DXIL");
}

// ---- several private parts

// 120 bytes: PRIV with 2 bytes after a gap of one, SFI0 with none, PRIV with 4, PRIV with none after a gap of 17, DXIL with one; three bytes
// after it.
fn private(b: &mut [u8; 2048]) {
    header(b, 120, 5);
    part(b, 0, 53, part_table::name_number(b"PRIV"), 2);
    put_half(b, 61, 513);
    part(b, 1, 63, part_table::name_number(b"SFI0"), 0);
    part(b, 2, 71, part_table::name_number(b"PRIV"), 4);
    put(b, 79, 67305985);
    part(b, 3, 100, part_table::name_number(b"PRIV"), 0);
    part(b, 4, 108, part_table::name_number(b"DXIL"), 1);
}

fn several_private() {
    let mut b = [0u8; 2048];
    private(&mut b);
    print(b"three PRIV:");
    read(&b, 120);
    let t = table(&b, 120);
    for k in 0..6 {
        entry(t, k);
    }
    lookup(&b, 120, b"PRIV");
    occurrence(&b, 120, b"PRIV", 0);
    occurrence(&b, 120, b"PRIV", 1);
    occurrence(&b, 120, b"PRIV", 2);
    occurrence(&b, 120, b"PRIV", 3);
    occurrence(&b, 120, b"PRIV", 18446744073709551615);
    occurrence(&b, 120, b"DXIL", 0);
    occurrence(&b, 120, b"DXIL", 1);
    occurrence(&b, 119, b"PRIV", 1);
}

// Another name that stands twice, beside three PRIV.
fn others_repeat(name: &[u8; 4]) {
    let mut b = [0u8; 2048];
    private(&mut b);
    part(&mut b, 1, 63, part_table::name_number(name), 0);
    part(&mut b, 4, 108, part_table::name_number(name), 1);
    print(name);
    print(b" twice beside them:");
    read(&b, 120);
    entry(table(&b, 120), 2);
}

// Gives each of 96 parts with no data one name.
fn name_all(b: &mut [u8; 2048], name: u32) {
    for k in 0..96 {
        put(b, 416 + 8 * k, name);
    }
}

fn all_private() {
    let mut b = [0u8; 2048];
    many(&mut b, 96);
    name_all(&mut b, part_table::name_number(b"PRIV"));
    print(b"96 PRIV:");
    read(&b, 1184);
    entry(table(&b, 1184), 95);
    occurrence(&b, 1184, b"PRIV", 95);
    occurrence(&b, 1184, b"PRIV", 96);
}

fn no_part() {
    let mut b = [0u8; 2048];
    header(&mut b, 40, 0);
    print(b"no part, 8 bytes after:");
    read(&b, 40);
    occurrence(&b, 40, b"PRIV", 0);
}

// A lookup in a table, at a count that may be above 96.
fn among(t: Table, count: usize, x: u32) {
    print(b"name");
    word(x);
    print(b" among");
    number(count as u64);
    print(b":");
    match part_table::find_name(&t.names, count, x) {
        Some(k) => number(k as u64),
        None => print(b" none"),
    }
    print(b"\n");
}

fn searches() {
    let mut b = [0u8; 2048];
    six(&mut b);
    let t = table(&b, 128);
    among(t, 6, 1);
    among(t, 6, 6);
    among(t, 5, 6);
    among(t, 6, 7);
    among(t, 200, 7);
}

fn known(name: &[u8; 4]) {
    print(name);
    if part_table::known(name) {
        print(b": known\n");
    } else {
        print(b": unknown\n");
    }
}

fn main() {
    fixed_header();
    sizes();
    counts();
    early(0);
    early(1);
    early(5);
    longer(0);
    longer(4);
    longer(5);
    past_the_end();
    for j in 1..6 {
        same_name(0, j);
    }
    for i in 1..5 {
        same_name(i, 5);
    }
    two_pairs();
    entries();
    lookups();
    searches();
    several_private();
    others_repeat(b"DXIL");
    others_repeat(b"priv");
    others_repeat(b"PRIV");
    all_private();
    no_part();
    known(b"DXIL");
    known(b"DXBC");
    known(b"VERS");
    known(b"dxil");
    known(b"OSG2");
}
