// show EDITION FILE: prints all that an opening of a container of at most 65,536 bytes and its queries show, one item a line.
#![tactic(auto)]

ghost use Rattle.std.specs.Prelude.{◌≡◌};
ghost use Rattle.part_table_layout.specs.Pairs.{counted_of};

use arguments::FileError;
use dxil_report_layout::Stages;
use part_table_layout::Table;
use places_layout::SectionPlaces;
use printing::{hex, number, pair, refusal, text, value};
use psv0_layout::{RuntimeInfo, Span, View};
use root_signature_layout::Item;
use signature_layout::NameSpan;
use signature_report_layout::SignaturePart;
use wire::Refusal;
use words::WordError;

// A container that opened: its bytes, its part table, by which the other parts' data are found, and the places that the opening handed back, by
// which all that is shown of PSV0 is read.
#[derive(Clone, Copy)]
struct Opened<'a> {
    bytes: &'a [u8],
    table: Table,
    places: SectionPlaces,
    ghost counted: { table ≡ counted_of bytes.now },
}

impl<'a> Opened<'a> {
    // The data of the first part with a name.
    fn data(&self, name: &[u8; 4]) -> Result<&'a [u8], Refusal> {
        let part = part_table::part_in(self.table, name, 0)?;
        let start = part.offset + 8;
        Ok(&self.bytes[start..start + part.size])
    }

    // What is shown of PSV0 as bytes: none where it is unset.
    fn view(&self, view: View) -> &'a [u8] {
        places::view_bytes(self.bytes, self.places, view)
    }

    fn span(&self, view: View) -> Result<Span, Refusal> {
        places::view_span(self.bytes, self.places, view)
    }

    fn runtime(&self) -> Result<RuntimeInfo, Refusal> {
        places::runtime_info(self.bytes, self.places)
    }
}

// ---- bytes and values

fn hex_bytes(s: &[u8]) {
    for b in s {
        hex(u32::from(*b), 2);
    }
}

// A string's bytes with its code points: each as it is where it prints, else in hex.
fn string_of(s: &[u8], points: usize) {
    text(b"\"");
    for b in s {
        match *b {
            0..=31 | b'"' | b'\\' | 127..=255 => {
                text(b"\\x");
                hex(u32::from(*b), 2);
            }
            shown => text(&[shown]),
        }
    }
    text(b"\" points ");
    number(points);
}

// A name and a value on a line of their own.
fn item(name: &[u8], f: Option<u32>) {
    text(name);
    text(b" ");
    value(f);
    text(b"\n");
}

// A name and a value further on in a line.
fn field(name: &[u8], f: Option<u32>) {
    text(name);
    value(f);
}

fn string(c: &Opened, view: View) {
    match c.span(view) {
        Ok(
            Span {
                points: Some(n),
                ..
            },
        ) => string_of(c.view(view), n),
        _ => text(b"unset"),
    }
}

// ---- the part table

fn parts(t: &Table) {
    text(b"parts ");
    number(t.count);
    pair(b"\npairs ", t.pairs);
    text(b"\n");
    for i in 0..t.count.min(96) {
        text(b"part ");
        number(i);
        text(b" ");
        printing::part(t.names[i], t.offsets[i], t.sizes[i]);
        pair(b" occurrence ", t.occurrences[i]);
        pair(b" gap ", t.gaps[i]);
        text(b"\n");
    }
}

// ---- the runtime record

fn runtime(c: &Opened) -> Result<(), Refusal> {
    text(b"stage_info ");
    hex_bytes(c.view(View::StageUnion));
    text(b"\n");
    let r = c.runtime()?;
    item(b"minimum_wave_lanes", r.minimum_wave_lanes);
    item(b"maximum_wave_lanes", r.maximum_wave_lanes);
    item(b"stage", r.stage);
    item(b"uses_view_id", r.uses_view_id);
    item(b"max_vertex_count", r.max_vertex_count);
    item(b"patch_vectors", r.patch_vectors);
    item(b"mesh_topology", r.mesh_topology);
    item(b"input_elements", r.input_elements);
    item(b"output_elements", r.output_elements);
    item(b"patch_elements", r.patch_elements);
    item(b"input_vectors", r.input_vectors);
    item(b"output_vectors_0", r.output_vectors_0);
    item(b"output_vectors_1", r.output_vectors_1);
    item(b"output_vectors_2", r.output_vectors_2);
    item(b"output_vectors_3", r.output_vectors_3);
    item(b"threads_x", r.threads_x);
    item(b"threads_y", r.threads_y);
    item(b"threads_z", r.threads_z);
    item(b"entry_name_offset", r.entry_name_offset);
    text(b"entry_name ");
    string(c, View::EntryName);
    text(b"\n");
    Ok(())
}

// ---- resources, elements and masks

fn resource(c: &Opened, i: usize) -> Result<(), Refusal> {
    let r = places::resource(c.bytes, c.places, i)?;
    text(b"resource ");
    number(i);
    field(b" type ", r.binding_type);
    field(b" space ", r.space);
    field(b" lower ", r.lower_bound);
    field(b" upper ", r.upper_bound);
    field(b" kind ", r.kind);
    field(b" flags ", r.flags);
    text(b"\n");
    Ok(())
}

// An index array: its numbers in brackets.
fn array(x: &[u8]) {
    text(b"[");
    for (i, four) in x.chunks_exact(4).enumerate() {
        if 0 < i {
            text(b" ");
        }
        number(wire::u32_at(four, 0) as usize);
    }
    text(b"]");
}

fn element(c: &Opened, i: usize) -> Result<(), Refusal> {
    let e = places::element(c.bytes, c.places, i)?;
    text(b"element ");
    number(i);
    text(b" name ");
    string(c, View::ElementString(i));
    text(b" indices ");
    array(c.view(View::ElementArray(i)));
    field(b" name_offset ", e.name_offset);
    field(b" index_reference ", e.index_reference);
    field(b" rows ", e.rows);
    field(b" start_row ", e.start_row);
    field(b" columns ", e.columns);
    field(b" start_column ", e.start_column);
    field(b" allocated ", e.allocated);
    field(b" semantic ", e.semantic_kind);
    field(b" component ", e.component_type);
    field(b" interpolation ", e.interpolation);
    field(b" dynamic_mask ", e.dynamic_mask);
    field(b" stream ", e.stream);
    field(b" reserved ", e.reserved);
    text(b"\n");
    Ok(())
}

// How many records a list has, and each of them: none where its length is unset.
fn lists(c: &Opened) -> Result<(), Refusal> {
    let l = places::lengths(c.bytes, c.places);
    item(b"resources", l.resources);
    for i in 0..l.resources.unwrap_or(0) {
        resource(c, i as usize)?;
    }
    item(b"strings", l.strings);
    item(b"indices", l.indices);
    item(b"elements", l.elements);
    for i in 0..l.elements.unwrap_or(0) {
        element(c, i as usize)?;
    }
    Ok(())
}

fn mask(c: &Opened, m: usize) {
    text(b"mask ");
    number(m);
    text(b" ");
    let view = View::Mask(m);
    match c.span(view) {
        Ok(Span { len: 0, .. }) => text(b"empty"),
        Ok(_) => hex_bytes(c.view(view)),
        Err(_) => text(b"unset"),
    }
    text(b"\n");
}

// ---- the report on the DXIL part

fn version(name: &[u8], major: u32, minor: u32) {
    text(name);
    pair(b" version ", major);
    pair(b" ", minor);
}

// The data d of the part, with the stage that PSV0 shows.
fn program_in(d: &[u8], psv0_stage: Option<u32>) -> Result<(), Refusal> {
    let h = dxil::read(d)?.header;
    version(b"program", h.version_major, h.version_minor);
    pair(b" stage ", h.stage);
    pair(b" words ", h.words);
    version(b"\nbitcode", h.bitcode_major, h.bitcode_minor);
    pair(b" offset ", h.bitcode_offset);
    pair(b" size ", h.bitcode_size);
    text(b"\n");
    match dxil_report::compared(h.stage, psv0_stage) {
        Stages::Equal => text(b"stages equal\n"),
        Stages::Different => text(b"stages different\n"),
        Stages::Unset => text(b"stages unset\n"),
    }
    Ok(())
}

fn program(c: &Opened) -> Result<(), Refusal> {
    program_in(c.data(b"DXIL")?, c.runtime()?.stage)
}

// ---- the reports on the signature parts

fn name_of(part: SignaturePart) -> &'static [u8; 4] {
    match part {
        SignaturePart::Input => b"ISG1",
        SignaturePart::Output => b"OSG1",
        SignaturePart::Patch => b"PSG1",
    }
}

// How each line of a part starts.
fn line_of(part: SignaturePart) {
    text(b"signature ");
    text(name_of(part));
    text(b" ");
}

// A name in the part's data.
fn name_in(d: &[u8], name: Option<NameSpan>) {
    match name {
        Some(x) => string_of(signature::name_bytes(d, name), x.points),
        None => text(b"unset"),
    }
}

// Element i of data that were judged: by itself, so that it costs no other element.
fn signature_element(d: &[u8], part: SignaturePart, i: usize) -> Result<(), Refusal> {
    let a = signature::element_alone(d, i)?;
    let e = a.element;
    line_of(part);
    number(i);
    text(b" name ");
    name_in(d, a.name);
    pair(b" name_offset ", e.name_offset);
    pair(b" index ", e.index);
    pair(b" stream ", e.stream);
    pair(b" system_value ", e.system_value);
    pair(b" component ", e.component_type);
    pair(b" register ", e.register_number);
    pair(b" mask ", e.mask);
    pair(b" exclusive_mask ", e.exclusive_mask);
    pair(b" precision ", e.precision);
    text(b"\n");
    Ok(())
}

// The first element at which the part and PSV0 differ.
fn difference(d: &[u8], c: &Opened, part: SignaturePart) -> Result<(), Refusal> {
    let first = signature_report::difference_by(d, c.bytes, c.places, part)?;
    line_of(part);
    text(b"first_difference ");
    match first {
        Some(i) => number(i),
        None => text(b"none"),
    }
    text(b"\n");
    Ok(())
}

fn signature_part(c: &Opened, part: SignaturePart) -> Result<(), Refusal> {
    let d = c.data(name_of(part))?;
    let n = signature::read(d)?;
    text(b"elements ");
    number(n);
    text(b"\n");
    for i in 0..n {
        signature_element(d, part, i)?;
    }
    difference(d, c, part)
}

// ---- the report on the root signature

// How each line of an item starts.
fn item_line(i: usize) {
    text(b"item ");
    number(i);
}

// A name, and a number's bits as eight hex digits.
fn bits(name: &[u8], n: u32) {
    text(name);
    hex(n, 8);
}

// Range j of item i, of data that were judged.
fn root_range(d: &[u8], i: usize, j: usize) -> Result<(), Refusal> {
    let r = root_signature::range_alone(d, i, j)?;
    item_line(i);
    text(b" range ");
    number(j);
    pair(b" type ", r.range_type);
    pair(b" descriptors ", r.descriptors);
    pair(b" register ", r.base_register);
    pair(b" space ", r.space);
    field(b" flags ", r.flags);
    pair(b" offset ", r.offset);
    text(b"\n");
    Ok(())
}

// Item i of data that were judged: by itself, so that it costs no other item.
fn root_item(d: &[u8], i: usize) -> Result<(), Refusal> {
    let item = root_signature::item_alone(d, i)?;
    item_line(i);
    match item {
        Item::Constants {
            visibility,
            register_number,
            space,
            count,
        } => {
            pair(b" constants visibility ", visibility);
            pair(b" register ", register_number);
            pair(b" space ", space);
            pair(b" count ", count);
            text(b"\n");
        }
        Item::Descriptor {
            parameter_type,
            visibility,
            register_number,
            space,
            flags,
        } => {
            pair(b" descriptor type ", parameter_type);
            pair(b" visibility ", visibility);
            pair(b" register ", register_number);
            pair(b" space ", space);
            field(b" flags ", flags);
            text(b"\n");
        }
        Item::Table {
            visibility,
            ranges,
            offset: _,
        } => {
            pair(b" table visibility ", visibility);
            pair(b" ranges ", ranges);
            text(b"\n");
            for j in 0..ranges {
                root_range(d, i, j as usize)?;
            }
        }
        Item::Sampler {
            filter,
            address_u,
            address_v,
            address_w,
            lod_bias,
            anisotropy,
            comparison,
            border,
            least_lod,
            greatest_lod,
            register_number,
            space,
            visibility,
        } => {
            pair(b" sampler filter ", filter);
            pair(b" address_u ", address_u);
            pair(b" address_v ", address_v);
            pair(b" address_w ", address_w);
            bits(b" lod_bias ", lod_bias.bits);
            pair(b" anisotropy ", anisotropy);
            pair(b" comparison ", comparison);
            pair(b" border ", border);
            bits(b" least_lod ", least_lod.bits);
            bits(b" greatest_lod ", greatest_lod.bits);
            pair(b" register ", register_number);
            pair(b" space ", space);
            pair(b" visibility ", visibility);
            text(b"\n");
        }
    }
    Ok(())
}

fn root(c: &Opened) -> Result<(), Refusal> {
    let d = c.data(b"RTS0")?;
    let h = root_signature::read(d)?;
    pair(b"version ", h.version);
    pair(b" parameters ", h.parameters);
    pair(b" samplers ", h.samplers);
    pair(b" flags ", h.flags);
    text(b"\n");
    for i in 0..h.parameters as usize + h.samplers as usize {
        root_item(d, i)?;
    }
    Ok(())
}

// ---- all of it

fn or_refusal(r: Result<(), Refusal>) {
    if let Err(refused) = r {
        refusal(refused);
    }
}

fn dump(c: &Opened) -> Result<(), Refusal> {
    parts(&c.table);
    runtime(c)?;
    lists(c)?;
    for m in 0..11 {
        mask(c, m);
    }
    if let Err(r) = program(c) {
        text(b"program ");
        refusal(r);
    }
    for part in [
        SignaturePart::Input,
        SignaturePart::Output,
        SignaturePart::Patch,
    ] {
        line_of(part);
        or_refusal(signature_part(c, part));
    }
    text(b"root_signature ");
    or_refusal(root(c));
    Ok(())
}

fn show(bytes: &[u8], edition: usize) -> Result<(), Refusal> {
    let o = container::open_places(bytes, edition)?;
    text(b"edition ");
    number(o.file_edition);
    pair(b" read ", o.places.edition);
    text(b"\n");
    dump(&Opened {
        bytes,
        table: part_table::read_with(bytes, true),
        places: o.places,
    })
}

fn show_file(rt: &HostRuntime, edition: usize) {
    let mut buffer = io::large_buffer();
    match arguments::file(rt, 2, &mut buffer) {
        Ok(b) => or_refusal(show(b, edition)),
        Err(FileError::TooLong) => text(b"too long\n"),
        Err(FileError::CannotOpen) => text(b"cannot open\n"),
    }
}

fn usage() {
    text(b"usage: show EDITION FILE\n");
}

fn main(rt: HostRuntime) {
    // The program's own name counts as an argument.
    if arguments::count(&rt) != 3 {
        usage();
        return;
    }
    match arguments::number(&rt, 1) {
        Ok(edition) => show_file(&rt, edition as usize),
        // No edition is so great: 25, as any above 3.
        Err(WordError::Greater) => show_file(&rt, 4),
        Err(WordError::NoNumber) => usage(),
    }
}
