// Assemblies at the edges of each refusal, and results that are read back by the table reader: one line a case, compared with
// the file stdout.
#![tactic(auto)]

use assembler::Parts;
use part_table_layout::Table;
use printing::text;
use runs::{either, number, refused, stretch};

// ---- comparing

// Whether an output that was all 170 still is from a place on.
fn untouched(out: &[u8; 2048], from: usize) -> bool {
    from <= 2048 && out.iter().skip(from).all(|b| *b == 170)
}

// Whether part k of a table has a name, a size and data, and starts at a multiple of 4.
fn part_same(b: &[u8], t: Table, k: usize, name: u32, size: u32, data: &[u8]) -> bool {
    if 95 < k || t.names[k] != name || t.sizes[k] != size || t.offsets[k] % 4 != 0 {
        return false;
    }
    check::same(stretch(b, t.offsets[k] as usize + 8, size as usize), data)
}

// Whether every part of a table is what was given.
fn parts_same(b: &[u8], t: Table, given: Parts) -> bool {
    let mut data = given.data;
    for (k, size) in given.sizes.iter().enumerate() {
        let name = wire::u32_at(given.names, 4 * k);
        let len = data.len().min(*size as usize);
        if !part_same(b, t, k, name, *size, stretch(data, 0, *size as usize)) {
            return false;
        }
        data = &data[len..];
    }
    true
}

// ---- cases

// What the table reader shows of a result: the number of parts, where the first four start, and whether all is as it was given.
fn read_back(b: &[u8], given: Parts) {
    let t = part_table::read(b);
    match t.verdict {
        Err(r) => refused(r),
        Ok(()) => {
            text(b" parts");
            number(t.count as usize);
            text(b" at");
            for offset in t.offsets.iter().take(t.count.min(4)) {
                number(*offset as usize);
            }
        }
    }
    either(t.count == given.sizes.len(), b" all", b" some");
    either(parts_same(b, t, given), b" same", b" other");
    either(
        check::same(stretch(b, 4, 16), given.digest),
        b" digest",
        b" no digest",
    );
}

// One assembly into an output of so many bytes, at the start of 2048.
fn assembly(label: &[u8], given: Parts, room: usize) {
    let mut out = [170u8; 2048];
    text(label);
    text(b":");
    let len = match given.assemble(&mut out[..room.min(2048)]) {
        Err(r) => {
            refused(r);
            0
        }
        Ok(len) => {
            text(b" accepted");
            number(len);
            read_back(stretch(&out, 0, len), given);
            len
        }
    };
    either(untouched(&out, len), b", rest kept\n", b", rest changed\n");
}

// The same, with a digest of 16 bytes.
fn digested(label: &[u8], names: &[u8], sizes: &[u32], data: &[u8], room: usize) {
    let given = Parts {
        names,
        sizes,
        data,
        digest: b"0123456789abcdef",
    };
    assembly(label, given, room);
}

// Parts without data, with a digest of another length.
fn other_digest(label: &[u8], names: &[u8], sizes: &[u32], digest: &[u8]) {
    let given = Parts {
        names,
        sizes,
        data: b"",
        digest,
    };
    assembly(label, given, 2048);
}

fn refused_27() {
    digested(b"three name bytes", b"ABC", &[0u32; 1], b"", 2048);
    digested(b"five name bytes", b"ABCDE", &[0u32; 1], b"", 2048);
    digested(b"a name, no part", b"ABCD", &[0u32; 0], b"", 2048);
    digested(b"a part, no name", b"", &[0u32; 1], b"", 2048);
    other_digest(b"digest of 15", b"ABCD", &[0u32; 1], b"0123456789abcde");
    other_digest(b"digest of 17", b"ABCD", &[0u32; 1], b"0123456789abcdefg");
    digested(b"sizes below the data", b"ABCD", &[1u32; 1], b"xy", 2048);
    digested(b"sizes above the data", b"ABCD", &[3u32; 1], b"xy", 2048);
    digested(
        b"sizes of 2^32 in all",
        b"ABCDEFGH",
        &[4294967295u32, 1],
        b"",
        2048,
    );
}

// Names 1, 2 and so on, of 97 parts.
fn numbered() -> [u8; 388] {
    let mut names = [0u8; 388];
    for k in 0..97 {
        wire::put_u32(&mut names, 4 * k, k as u32 + 1);
    }
    names
}

fn many(names: &[u8; 388]) {
    digested(b"96 parts", stretch(names, 0, 384), &[0u32; 96], b"", 2048);
    digested(b"97 parts", names, &[0u32; 97], b"", 2048);
    digested(
        b"97 parts, 27 before 6",
        stretch(names, 0, 384),
        &[0u32; 97],
        b"",
        2048,
    );
    digested(b"97 parts, 6 before 28", names, &[0u32; 97], b"", 0);
    digested(
        b"97 equal names, 6 before 9",
        &[0u8; 388],
        &[0u32; 97],
        b"",
        2048,
    );
}

fn refused_6() {
    many(&numbered());
}

fn refused_9() {
    digested(b"name 0 again at 1", b"AAAAAAAA", &[0u32; 2], b"", 2048);
    digested(b"name 0 again at 2", b"AAAABBBBAAAA", &[0u32; 3], b"", 2048);
    digested(b"name 1 again at 2", b"AAAABBBBBBBB", &[0u32; 3], b"", 2048);
    digested(
        b"names again at 2 and 3",
        b"AAAABBBBAAAABBBB",
        &[0u32; 4],
        b"",
        2048,
    );
    digested(
        b"names that end differently",
        b"AAAAAAAB",
        &[0u32; 2],
        b"",
        2048,
    );
    other_digest(b"27 before 9", b"AAAAAAAA", &[0u32; 2], b"");
    digested(b"9 before 28", b"AAAAAAAA", &[0u32; 2], b"", 0);
}

// PRIV may stand more than once; no other name may beside it.
fn several_private() {
    digested(
        b"PRIV again at 2 and 3",
        b"PRIVDXILPRIVPRIV",
        &[1u32, 0, 2, 3],
        b"122333",
        2048,
    );
    digested(
        b"name 1 again at 3, PRIV at 2",
        b"PRIVDXILPRIVDXIL",
        &[0u32; 4],
        b"",
        2048,
    );
    digested(b"priv again at 1", b"privpriv", &[0u32; 2], b"", 2048);
    digested(b"PRIV again, 28", b"PRIVPRIV", &[0u32; 2], b"", 55);
}

// 96 parts of one name.
fn all_private() {
    let mut names = [0u8; 384];
    for k in 0..96 {
        wire::put_u32(&mut names, 4 * k, wire::u32_at(b"PRIV", 0));
    }
    digested(b"96 PRIV", &names, &[0u32; 96], b"", 2048);
}

// The data of the PRIV parts of an assembly, by their occurrences; nothing past the last.
fn each_private() {
    let mut out = [170u8; 91];
    if let Err(r) = assembler::assemble(
        b"PRIVDXILPRIVPRIV",
        &[1u32, 0, 2, 3],
        b"122333",
        b"0123456789abcdef",
        &mut out,
    ) {
        refused(r);
    }
    text(b"PRIV 0 to 3:");
    for occurrence in 0..4 {
        text(b" ");
        text(part_table::part_data_occurrence(&out, b"PRIV", occurrence));
    }
    text(b"\n");
}

fn outputs() {
    digested(b"no part in 31", b"", &[0u32; 0], b"", 31);
    digested(b"no part in 32", b"", &[0u32; 0], b"", 32);
    digested(b"62 bytes in 0", b"AAAABBBB", &[1u32, 2], b"xyz", 0);
    digested(b"62 bytes in 61", b"AAAABBBB", &[1u32, 2], b"xyz", 61);
    digested(b"62 bytes in 62", b"AAAABBBB", &[1u32, 2], b"xyz", 62);
    digested(b"62 bytes in 63", b"AAAABBBB", &[1u32, 2], b"xyz", 63);
    digested(b"27 before 28", b"AAAABBBB", &[1u32, 1], b"xyz", 0);
}

fn sizes() {
    digested(b"one part of 0", b"ABCD", &[0u32; 1], b"", 2048);
    digested(
        b"sizes 0 1 2 3",
        b"AAAABBBBCCCCDDDD",
        &[0u32, 1, 2, 3],
        b"122333",
        2048,
    );
    digested(
        b"sizes 3 2 1 0",
        b"AAAABBBBCCCCDDDD",
        &[3u32, 2, 1, 0],
        b"333221",
        2048,
    );
    digested(
        b"box M",
        b"DXILPSV0",
        &[4u32, 32],
        b"\x01\x02\x03\x04\x18\x00\x00\x00____________________________",
        2048,
    );
}

// The container of parts AAAA (x) and BBBB (yz), byte by byte.
fn laid_out(out: &[u8; 62]) {
    let header = b"DXBC0123456789abcdef\x01\x00\x00\x00\x3e\x00\x00\x00\x02\x00\x00\x00";
    let offsets = b"\x28\x00\x00\x00\x34\x00\x00\x00";
    let parts = b"AAAA\x01\x00\x00\x00x\x00\x00\x00BBBB\x02\x00\x00\x00yz";
    text(b"byte by byte:");
    either(
        check::same(stretch(out, 0, 32), header),
        b" header",
        b" other header",
    );
    either(
        check::same(stretch(out, 32, 8), offsets),
        b" offsets",
        b" other offsets",
    );
    either(
        check::same(stretch(out, 40, 22), parts),
        b" parts",
        b" other parts",
    );
    text(b"\n");
}

fn bytes() {
    let mut out = [170u8; 62];
    if let Err(r) = assembler::assemble(
        b"AAAABBBB",
        &[1u32, 2],
        b"xyz",
        b"0123456789abcdef",
        &mut out,
    ) {
        refused(r);
    }
    laid_out(&out);
}

fn main() {
    refused_27();
    refused_6();
    refused_9();
    several_private();
    all_private();
    each_private();
    outputs();
    sizes();
    bytes();
}
