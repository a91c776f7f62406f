// PSV0 data of each edition, written, assembled into a container, opened again at each edition and shown value by value, then written
// again from what the reading hands out: compared with the file stdout. An unset value is `-`.
#![tactic(auto)]

use printing::text;
use psv0_layout::{ElementRecord, ListLengths, ResourceRecord, RuntimeInfo, Section, View};
use psv0_writer::Sections;
use runs::{either, number, refused, stretch};
use wire::Refusal;

// ---- printing

// A writer's answer.
fn wrote(label: &[u8], answer: Result<usize, Refusal>) {
    text(label);
    match answer {
        Err(r) => refused(r),
        Ok(len) => number(len),
    }
}

fn compared(a: &[u8], b: &[u8]) {
    either(check::same(a, b), b" same", b" other");
}

fn fields(label: &[u8], values: &[Option<u32>]) {
    text(label);
    for value in values {
        match value {
            Some(n) => number(*n as usize),
            None => text(b" -"),
        }
    }
}

// Numbers of 4 bytes.
fn words(s: &[u8]) {
    for word in s.chunks_exact(4) {
        number(wire::u32_at(word, 0) as usize);
    }
}

// Puts bytes at a place and answers the place after them; where they do not fit, nothing changes.
fn put(out: &mut [u8], at: usize, s: &[u8]) -> usize {
    if at <= out.len() && s.len() <= out.len() - at {
        out[at..at + s.len()].copy_from_slice(s);
        return at + s.len();
    }
    at
}

// ---- what a reading shows

fn show_info(i: RuntimeInfo) {
    fields(b"  lanes", &[i.minimum_wave_lanes, i.maximum_wave_lanes]);
    fields(b" stage and view", &[i.stage, i.uses_view_id]);
    fields(
        b" vertices, patch and topology",
        &[i.max_vertex_count, i.patch_vectors, i.mesh_topology],
    );
    fields(
        b"\n  elements",
        &[i.input_elements, i.output_elements, i.patch_elements],
    );
    fields(
        b" vectors",
        &[
            i.input_vectors,
            i.output_vectors_0,
            i.output_vectors_1,
            i.output_vectors_2,
            i.output_vectors_3,
        ],
    );
    fields(b" threads", &[i.threads_x, i.threads_y, i.threads_z]);
    fields(b" entry name at", &[i.entry_name_offset]);
}

fn show_lengths(l: ListLengths) {
    fields(b"\n  resources, strings", &[l.resources, l.strings]);
    fields(b" indices, elements", &[l.indices, l.elements]);
    text(b"\n");
}

fn bindings(r: ResourceRecord) {
    fields(b"", &[r.binding_type, r.space, r.lower_bound]);
    fields(b"", &[r.upper_bound, r.kind, r.flags]);
}

fn show_resource(b: &[u8], k: usize, i: usize) {
    text(b"  resource");
    number(i);
    text(b":");
    match container::resource(b, k, i) {
        Err(r) => refused(r),
        Ok(resource) => bindings(resource),
    }
    text(b"\n");
}

fn show_text(b: &[u8], k: usize, view: View) {
    match container::view_span(b, k, view) {
        Err(r) => refused(r),
        Ok(_) => {
            text(b" `");
            text(container::view_bytes(b, k, view));
            text(b"`");
        }
    }
}

fn array(b: &[u8], k: usize, view: View) {
    match container::view_span(b, k, view) {
        Err(r) => refused(r),
        Ok(_) => words(container::view_bytes(b, k, view)),
    }
}

fn placing(e: ElementRecord) {
    fields(b"", &[e.name_offset, e.index_reference]);
    fields(b" rows", &[e.rows, e.start_row]);
    fields(b" columns", &[e.columns, e.start_column, e.allocated]);
}

fn kinds(e: ElementRecord) {
    fields(
        b" kind",
        &[e.semantic_kind, e.component_type, e.interpolation],
    );
    fields(b" mask", &[e.dynamic_mask, e.stream, e.reserved]);
}

fn show_element(b: &[u8], k: usize, i: usize) {
    text(b"  element");
    number(i);
    text(b":");
    match container::element(b, k, i) {
        Err(r) => refused(r),
        Ok(element) => {
            placing(element);
            kinds(element);
        }
    }
    text(b", string");
    show_text(b, k, View::ElementString(i));
    text(b", array");
    array(b, k, View::ElementArray(i));
    text(b"\n");
}

// Masks 0 to 10, and 11, which isn't there.
fn show_masks(b: &[u8], k: usize) {
    for i in 0..12 {
        text(b" [");
        array(b, k, View::Mask(i));
        text(b" ]");
    }
}

// What is handed out of a section, and whether it is the front of what was given.
fn show_section(b: &[u8], k: usize, section: Section, given: &[u8]) {
    let s = container::section_bytes(b, k, section);
    number(s.len());
    compared(s, stretch(given, 0, s.len()));
}

fn show_sections(b: &[u8], k: usize, given: Sections) {
    text(b"  to write again");
    show_section(b, k, Section::RuntimeRecord, given.runtime);
    show_section(b, k, Section::ResourceRecords, given.resources);
    show_section(b, k, Section::StringTable, given.strings);
    show_section(b, k, Section::IndexTable, given.indices);
    show_section(b, k, Section::ElementRecords, given.elements);
    show_section(b, k, Section::Masks, given.masks);
    text(b"\n");
}

// All but the sections: three resources; of the elements, so many and one that isn't there.
fn show_values(b: &[u8], k: usize, count: usize) {
    text(b"  union");
    show_text(b, k, View::StageUnion);
    text(b" entry name");
    show_text(b, k, View::EntryName);
    text(b"\n");
    match container::runtime_info(b, k) {
        Err(r) => refused(r),
        Ok(info) => show_info(info),
    }
    match container::lengths(b, k) {
        Err(r) => refused(r),
        Ok(lengths) => show_lengths(lengths),
    }
    for i in 0..3 {
        show_resource(b, k, i);
    }
    for i in 0..count {
        show_element(b, k, i);
    }
    show_element(b, k, count);
    text(b"  masks");
    show_masks(b, k);
    text(b"\n");
}

fn show_opening(b: &[u8], k: usize) {
    text(b" reader");
    number(k);
    match container::open(b, k) {
        Err(r) => refused(r),
        Ok(opening) => {
            text(b" parts");
            number(opening.parts);
            text(b" edition");
            number(opening.file_edition);
            text(b" read as");
            number(opening.edition_read);
        }
    }
    text(b"\n");
}

fn reading(b: &[u8], k: usize, given: Sections) {
    show_opening(b, k);
    show_values(b, k, given.elements.len() / 16);
    show_sections(b, k, given);
}

// ---- the container: DXIL, the PSV0 data and a part of an unknown name

// The container's length; the PSV0 data stand at 5 in the data, and are of so many bytes.
fn assembled(data: &mut [u8; 1024], len: usize, out: &mut [u8; 1024]) -> usize {
    if 1000 < len {
        return 0;
    }
    put(data, 0, b"bytes");
    put(data, 5 + len, b"own");
    let sizes = [5u32, len as u32, 3];
    let answer = assembler::assemble(
        b"DXILPSV0none",
        &sizes,
        stretch(data, 0, 8 + len),
        b"0123456789abcdef",
        out,
    );
    wrote(b" assembled", answer);
    text(b"\n");
    answer.unwrap_or(0)
}

fn show_part(b: &[u8], name: &[u8; 4], given: &[u8]) {
    text(b" ");
    text(name);
    match container::part(b, 3, name) {
        Err(r) => refused(r),
        Ok(part) => {
            number(part.number);
            number(part.offset);
            number(part.size);
        }
    }
    compared(container::part_bytes(b, 3, name), given);
}

fn show_parts(b: &[u8], psv0: &[u8]) {
    text(b" parts");
    show_part(b, b"DXIL", b"bytes");
    show_part(b, b"PSV0", psv0);
    show_part(b, b"none", b"own");
    text(b" digest");
    compared(stretch(b, 4, 16), b"0123456789abcdef");
    text(b"\n");
}

// PSV0 data written again from all that reader 3 hands out, beside those of the part.
fn write_again(b: &[u8], out: &mut [u8]) -> Result<usize, Refusal> {
    let opening = container::open(b, 3)?;
    let handed = Sections {
        runtime: container::section_bytes(b, 3, Section::RuntimeRecord),
        resources: container::section_bytes(b, 3, Section::ResourceRecords),
        strings: container::section_bytes(b, 3, Section::StringTable),
        indices: container::section_bytes(b, 3, Section::IndexTable),
        elements: container::section_bytes(b, 3, Section::ElementRecords),
        masks: container::section_bytes(b, 3, Section::Masks),
    };
    handed.write(opening.edition_read, out)
}

fn again(b: &[u8]) {
    let mut out = [0u8; 1024];
    let answer = write_again(b, &mut out);
    wrote(b" written again", answer);
    compared(
        stretch(&out, 0, answer.unwrap_or(0)),
        container::part_bytes(b, 3, b"PSV0"),
    );
    text(b"\n");
}

// ---- a widening: 4 bytes more in the runtime record, in each of two resource records and of three element records, and at the end

// A record and 4 bytes.
fn wider(out: &mut [u8; 1024], at: usize, s: &[u8], from: usize, len: usize) -> usize {
    let end = put(out, at, stretch(s, from, len));
    put(out, end, b"more")
}

fn wider_head(out: &mut [u8; 1024], given: Sections) -> usize {
    let runtime = put(out, 5, b"\x38\x00\x00\x00");
    let count = wider(out, runtime, given.runtime, 0, 52);
    let first = put(out, count, b"\x02\x00\x00\x00\x1c\x00\x00\x00");
    let second = wider(out, first, given.resources, 0, 24);
    wider(out, second, given.resources, 24, 24)
}

fn tables(out: &mut [u8; 1024], at: usize, given: Sections) -> usize {
    let strings = put(out, at, b"\x10\x00\x00\x00");
    let count = put(out, strings, given.strings);
    let indices = put(out, count, b"\x06\x00\x00\x00");
    put(out, indices, given.indices)
}

fn wider_elements(out: &mut [u8; 1024], at: usize, given: Sections) -> usize {
    let first = put(out, at, b"\x14\x00\x00\x00");
    let second = wider(out, first, given.elements, 0, 16);
    let third = wider(out, second, given.elements, 16, 16);
    let masks = wider(out, third, given.elements, 32, 16);
    wider(out, masks, given.masks, 0, 44)
}

fn widening(given: Sections) {
    let mut data = [170u8; 1024];
    let head = wider_head(&mut data, given);
    let body = tables(&mut data, head, given);
    let end = wider_elements(&mut data, body, given);
    let psv0_len = end.saturating_sub(5);
    let mut out = [170u8; 1024];
    text(b" widened");
    let len = assembled(&mut data, psv0_len, &mut out);
    let b = stretch(&out, 0, len);
    show_parts(b, stretch(&data, 5, psv0_len));
    show_opening(b, 3);
    show_values(b, 3, 3);
}

// ---- all of it

fn round_trip(edition: usize, given: Sections) {
    let mut data = [170u8; 1024];
    let answer = given.write(edition, &mut data[5..]);
    wrote(b" written", answer);
    let psv0_len = answer.unwrap_or(0);
    let mut out = [170u8; 1024];
    let len = assembled(&mut data, psv0_len, &mut out);
    let b = stretch(&out, 0, len);
    show_parts(b, stretch(&data, 5, psv0_len));
    for k in 0..4 {
        reading(b, k, given);
    }
    again(b);
    if edition == 3 {
        widening(given);
    }
}

// ---- what is given

// A runtime record: stage and UsesViewID, bytes 26 and 27, the three element counts, input vectors and output vectors.
fn record(stage: [u8; 2], p: [u8; 2], counts: [u8; 3], u: u8, v: [u8; 4]) -> [u8; 52] {
    let mut r = [0u8; 52];
    put(&mut r, 0, b"a stage's union!");
    wire::put_u32(&mut r, 16, 100000004);
    wire::put_u32(&mut r, 20, 100000064);
    put(&mut r, 24, &stage);
    put(&mut r, 26, &p);
    put(&mut r, 28, &counts);
    r[31] = u;
    put(&mut r, 32, &v);
    wire::put_u32(&mut r, 36, 200000008);
    wire::put_u32(&mut r, 40, 200000004);
    wire::put_u32(&mut r, 44, 200000002);
    wire::put_u32(&mut r, 48, 1);
    r
}

// The numbers from 1000 on: 12 for two resources, then those of the masks.
fn numbered() -> [u8; 200] {
    let mut words = [0u8; 200];
    for k in 0..50 {
        wire::put_u32(&mut words, 4 * k, 1000 + k as u32);
    }
    words
}

fn indices() -> [u8; 24] {
    let mut x = [0u8; 24];
    wire::put_u32(&mut x, 0, 2);
    wire::put_u32(&mut x, 4, 100000007);
    wire::put_u32(&mut x, 8, 100000008);
    wire::put_u32(&mut x, 16, 1);
    wire::put_u32(&mut x, 20, 100000009);
    x
}

// Arrays of two numbers, none at the end of the table, one, all six, two and three.
fn elements() -> [u8; 96] {
    let mut e = [0u8; 96];
    put(
        &mut e,
        0,
        b"\x06\x00\x00\x00\x01\x00\x00\x00\x02b\xe4cde\xd5f",
    );
    put(
        &mut e,
        16,
        b"\x0a\x00\x00\x00\x06\x00\x00\x00\x00h\x93ijk\x6al",
    );
    put(
        &mut e,
        32,
        b"\x00\x00\x00\x00\x05\x00\x00\x00\x01n\x71opq\xb3r",
    );
    put(
        &mut e,
        48,
        b"\x07\x00\x00\x00\x00\x00\x00\x00\x06t\x02uvw\x0fx",
    );
    put(
        &mut e,
        64,
        b"\x0b\x00\x00\x00\x04\x00\x00\x00\x02B\xffCDE\xc1F",
    );
    put(
        &mut e,
        80,
        b"\x0e\x00\x00\x00\x03\x00\x00\x00\x03H\xc8IJK\x2cL",
    );
    e
}

// Sections of these lengths: runtime, resources, strings, indices, elements, masks.
fn case(label: &[u8], edition: usize, r: [u8; 52], n: [usize; 6]) {
    let words = numbered();
    let x = indices();
    let e = elements();
    text(label);
    text(b":\n");
    let given = Sections {
        runtime: stretch(&r, 0, n[0]),
        resources: stretch(&words, 0, n[1]),
        strings: stretch(b"\x00main\x00POS\x00TEX\x00\x00\x00", 0, n[2]),
        indices: stretch(&x, 0, n[3]),
        elements: stretch(&e, 0, n[4]),
        masks: stretch(&words, 48, n[5]),
    };
    round_trip(edition, given);
}

fn main() {
    case(
        b"edition 0",
        0,
        record([0, 0], [0, 0], [0, 0, 0], 0, [0, 0, 0, 0]),
        [24, 32, 0, 0, 0, 0],
    );
    case(
        b"edition 1, hull",
        1,
        record([3, 1], [3, 77], [1, 2, 3], 2, [9, 0, 0, 0]),
        [36, 32, 16, 24, 96, 108],
    );
    case(
        b"edition 1, geometry",
        1,
        record([2, 1], [44, 1], [2, 1, 0], 1, [1, 9, 17, 2]),
        [36, 32, 16, 24, 48, 140],
    );
    case(
        b"edition 2, domain",
        2,
        record([4, 1], [2, 78], [1, 0, 2], 3, [5, 0, 0, 0]),
        [48, 48, 16, 24, 48, 84],
    );
    case(
        b"edition 2, compute",
        2,
        record([5, 0], [79, 80], [0, 0, 0], 1, [4, 0, 0, 0]),
        [48, 48, 16, 24, 0, 16],
    );
    case(
        b"edition 3, mesh",
        3,
        record([13, 1], [10, 6], [0, 2, 1], 2, [4, 0, 0, 0]),
        [52, 48, 16, 24, 48, 44],
    );
}
