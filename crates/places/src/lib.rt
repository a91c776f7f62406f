// Queries of PSV0 by a record of section places and the bytes: any record, any bytes. A query gives 26 by the record, then 29 where what it needs
// doesn't lie inside the bytes or a reference on its way isn't good.
#![tactic(auto)]

ghost use Rattle.std.specs.Prelude.{◌≡◌, ◌||◌, ◌+◌, ◌*◌, ◌≤◌, ◌<◌, leb, eqb, length, get_or, take};
ghost use Rattle.wire.specs.Choice.{choose};
ghost use Rattle.wire.specs.Number.{u32_at};
ghost use Rattle.wire.specs.Verdict.{check, under};
ghost use Rattle.psv0_layout.specs.Field.{vertex_count, vertex_stage, patch_byte, patch_stage, topology, mesh_stage, thread_stage, sum};
ghost use Rattle.psv0_layout.specs.Layout.{resource_width};
ghost use Rattle.psv0_layout.specs.Shown.{element_field, number, set_if};
ghost use Rattle.psv0_layout.specs.Answers.{field_of, info_of, resource_of, element_of, question_of, bytes_of};
ghost use Rattle.psv0_layout.specs.Parts.{resource_shown, element_shown};
ghost use Rattle.places_layout.specs.Answers.{shown_by, info_by, resource_by, element_by, lengths_by, ViewBy, SectionBy};
ghost use Rattle.places_layout.specs.Handed.{later_by};
ghost use Rattle.places_layout.specs.Parts.{of_runtime, StretchShows, StringShows, ArrayShows};
ghost use Rattle.places_layout.specs.Placed.{no_places, moved_place, moved_by};
ghost use Rattle.places_layout.specs.Read.{answered_by};

use places_layout::SectionPlaces;
use psv0_layout::{ElementRecord, ListLengths, ResourceRecord, RuntimeInfo, Section, Span, View};
use wire::Refusal;

// No places: the zeros that the C interface gives beside a refusal.
pub fn none() -> SectionPlaces
    ensures { result ≡ no_places }
{
    SectionPlaces::default()
}

// ---- fields of the runtime record

// A number that is shown from an edition on.
fn from(need: usize, er: usize, n: u32) -> Option<u32>
    ensures { result ≡ field_of (set_if (leb need er) (number n)) }
{
    (need <= er).then_some(n)
}

// The same, where there is one.
fn from_if(has: bool, need: usize, er: usize, n: u32) -> Option<u32>
    ensures { result ≡ field_of (set_if (leb need er) (set_if has (number n))) }
{
    (has && need <= er).then_some(n)
}

// A runtime record's bytes up to the edition read, with the recorded stage.
#[derive(Clone, Copy)]
struct Runtime<'a> {
    bytes: &'a [u8],
    stage: u32,
    edition: usize,
}

impl<'a> Runtime<'a> {
    fn byte(self, need: usize, at: usize) -> Option<u32>
        ensures { result ≡ field_of (set_if (leb need self.entry.edition) (number (get_or self.entry.bytes.now at 0))) }
    {
        from(need, self.edition, wire::byte_at(self.bytes, at) as u32)
    }

    fn number(self, need: usize, at: usize) -> Option<u32>
        ensures { result ≡ field_of (set_if (leb need self.entry.edition) (number (u32_at self.entry.bytes.now at))) }
    {
        from(need, self.edition, wire::u32_at(self.bytes, at))
    }

    fn max_vertex_count(self) -> Option<u32>
        ensures { result ≡ field_of (set_if (leb 1 self.entry.edition) (set_if (vertex_stage self.entry.stage) (number (vertex_count self.entry.bytes.now)))) }
    {
        from_if(
            self.stage == 2,
            1,
            self.edition,
            wire::u16_at(self.bytes, 26),
        )
    }

    fn patch_vectors(self) -> Option<u32>
        ensures { result ≡ field_of (set_if (leb 1 self.entry.edition) (set_if (patch_stage self.entry.stage) (number (patch_byte self.entry.bytes.now)))) }
    {
        let has = matches!(self.stage, 3 | 4 | 13);
        from_if(has, 1, self.edition, wire::byte_at(self.bytes, 26) as u32)
    }

    fn mesh_topology(self) -> Option<u32>
        ensures { result ≡ field_of (set_if (leb 1 self.entry.edition) (set_if (mesh_stage self.entry.stage) (number (topology self.entry.bytes.now)))) }
    {
        from_if(
            self.stage == 13,
            1,
            self.edition,
            wire::byte_at(self.bytes, 27) as u32,
        )
    }

    fn thread_count(self, at: usize) -> Option<u32>
        ensures { result ≡ field_of (set_if (leb 2 self.entry.edition) (set_if (thread_stage self.entry.stage) (number (u32_at self.entry.bytes.now at)))) }
    {
        let has = matches!(self.stage, 5 | 13 | 14);
        from_if(has, 2, self.edition, wire::u32_at(self.bytes, at))
    }

    fn info(self) -> RuntimeInfo
        ensures { result ≡ info_of (of_runtime self.entry.stage self.entry.edition self.entry.bytes.now) }
    {
        RuntimeInfo {
            minimum_wave_lanes: self.number(0, 16),
            maximum_wave_lanes: self.number(0, 20),
            stage: self.byte(1, 24),
            uses_view_id: self.byte(1, 25),
            max_vertex_count: self.max_vertex_count(),
            patch_vectors: self.patch_vectors(),
            mesh_topology: self.mesh_topology(),
            input_elements: self.byte(1, 28),
            output_elements: self.byte(1, 29),
            patch_elements: self.byte(1, 30),
            input_vectors: self.byte(1, 31),
            output_vectors_0: self.byte(1, 32),
            output_vectors_1: self.byte(1, 33),
            output_vectors_2: self.byte(1, 34),
            output_vectors_3: self.byte(1, 35),
            threads_x: self.thread_count(36),
            threads_y: self.thread_count(40),
            threads_z: self.thread_count(44),
            entry_name_offset: self.number(3, 48),
        }
    }
}

// ---- one record

// Kind or flags: only in records of 24 bytes or more, from edition 2 on.
fn late_field(r: &[u8], er: usize, at: usize) -> Option<u32>
    ensures { result ≡ field_of (set_if (leb 2 er) (set_if (leb 24 (length r.now)) (number (u32_at r.now at)))) }
{
    from_if(24 <= r.len(), 2, er, wire::u32_at(r, at))
}

fn resource_at(r: &[u8], er: usize) -> ResourceRecord
    requires { 16 ≤ length r.now }
    ensures { result ≡ resource_of (resource_shown er r.now) }
{
    ResourceRecord {
        binding_type: Some(wire::u32_at(r, 0)),
        space: Some(wire::u32_at(r, 4)),
        lower_bound: Some(wire::u32_at(r, 8)),
        upper_bound: Some(wire::u32_at(r, 12)),
        kind: late_field(r, er, 16),
        flags: late_field(r, er, 20),
    }
}

fn byte_field(r: &[u8], at: usize) -> Option<u32>
    ensures { result ≡ Some (get_or r.now at 0) }
{
    Some(wire::byte_at(r, at) as u32)
}

fn number_field(r: &[u8], at: usize) -> Option<u32>
    ensures { result ≡ Some (u32_at r.now at) }
{
    Some(wire::u32_at(r, at))
}

fn element_at(r: &[u8]) -> ElementRecord
    ensures { result ≡ element_of (element_shown r.now) }
{
    let columns_byte = wire::byte_at(r, 10);
    let stream_byte = wire::byte_at(r, 14);
    ElementRecord {
        name_offset: number_field(r, 0),
        index_reference: number_field(r, 4),
        rows: byte_field(r, 8),
        start_row: byte_field(r, 9),
        columns: Some((columns_byte % 16) as u32),
        start_column: Some((columns_byte / 16 % 4) as u32),
        allocated: Some((columns_byte / 64 % 2) as u32),
        semantic_kind: byte_field(r, 11),
        component_type: byte_field(r, 12),
        interpolation: byte_field(r, 13),
        dynamic_mask: Some((stream_byte % 16) as u32),
        stream: Some((stream_byte / 16 % 4) as u32),
        reserved: byte_field(r, 15),
    }
}

// ---- places, whatever numbers the record holds

// 29 where n bytes at a place don't lie inside.
fn inside(b: &[u8], at: usize, n: usize) -> Result<(), Refusal>
    ensures { result ≡ under (check (leb (at + n) (length b.now)) 29 0) tt }
{
    let len = b.len();
    if len < at || len - at < n {
        return wire::refused(29, 0);
    }
    Ok(())
}

// Where record i stands, of records of a size: numbers of 32 bits don't pass 64.
fn row_place(first: u32, i: usize, size: u32) -> usize
    requires { i < 4294967296 }
    ensures { result ≡ first + i * size }
{
    first as usize + i * size as usize
}

// The bytes of some records of a size.
fn bytes_of(count: u32, size: u32) -> usize
    ensures { result ≡ count * size }
{
    count as usize * size as usize
}

// The n bytes at a place, or 29.
fn stretch(b: &[u8], at: usize, n: usize) -> Result<Span, Refusal>
    ensures { StretchShows b.now at n result }
{
    inside(b, at, n)?;
    Ok(Span {
        start: at,
        points: None,
        len: n,
    })
}

// ---- the queries

// The fields of the runtime record.
pub fn runtime_info(b: &[u8], p: SectionPlaces) -> Result<RuntimeInfo, Refusal>
    ensures { result ≡ info_by p b.now }
{
    let edition = p.edition as usize;
    let at = p.runtime as usize;
    let n = constants::edition_size(edition);
    inside(b, at, n)?;
    let record = Runtime {
        bytes: &b[at..at + n],
        stage: p.stage,
        edition,
    };
    Ok(record.info())
}

// How many bytes of a resource record a reading looks at.
fn resource_width(er: usize, size: u32) -> usize
    ensures { result ≡ resource_width er size }
{
    if er < 2 || size < 24 {
        return 16;
    }
    24
}

// Resource record i.
pub fn resource(b: &[u8], p: SectionPlaces, i: usize) -> Result<ResourceRecord, Refusal>
    ensures { result ≡ resource_by p b.now i }
{
    if p.resource_count as usize <= i {
        return wire::refused(26, 0);
    }
    let er = p.edition as usize;
    let at = row_place(p.resources, i, p.resource_size);
    let n = resource_width(er, p.resource_size);
    inside(b, at, n)?;
    Ok(resource_at(&b[at..at + n], er))
}

// Where element record i stands: 26 where there is none, 29 where it doesn't lie inside.
// Stays: bytes and record go side by side, as in the public calls that docs/ARCHITECTURE.md names; a struct of both would be built in each of them (d).
fn element_place(b: &[u8], p: &SectionPlaces, i: usize) -> Result<usize, Refusal>
    ensures { result ≡ under (answered_by p.now b.now (element_field i 0)).verdict (p.now.elements + i * p.now.element_size) }
{
    if p.edition < 1 || p.element_count as usize <= i {
        return wire::refused(26, 0);
    }
    let at = row_place(p.elements, i, p.element_size);
    inside(b, at, 16)?;
    Ok(at)
}

// Element record i, numbered over all lists. Compiled into its caller: a record that is handed on in memory is read in other cuts than it is stored in.
#[inline(always)]
pub fn element(b: &[u8], p: SectionPlaces, i: usize) -> Result<ElementRecord, Refusal>
    ensures { result ≡ element_by p b.now i }
{
    let at = element_place(b, &p, i)?;
    Ok(element_at(&b[at..at + 16]))
}

// The lists' lengths: the bytes aren't looked at, and nothing is refused.
pub fn lengths(b: &[u8], p: SectionPlaces) -> ListLengths
    ensures { result ≡ lengths_by p b.now }
{
    let er = p.edition as usize;
    ListLengths {
        resources: Some(p.resource_count),
        strings: from(1, er, p.string_bytes),
        indices: from(1, er, p.index_count),
        elements: from(1, er, p.element_count),
    }
}

// The string at a reference into a table of n bytes, with its code points, or 29.
fn string(b: &[u8], start: usize, n: usize, o: usize) -> Result<Span, Refusal>
    ensures { StringShows b.now start n o result }
{
    inside(b, start, n)?;
    let Some(read) = utf8::read_string(&b[start..start + n], o) else {
        return wire::refused(29, 0);
    };
    Ok(Span {
        start: start + o,
        points: Some(read.points),
        len: read.len,
    })
}

fn element_string(b: &[u8], p: &SectionPlaces, i: usize) -> Result<Span, Refusal>
    ensures { ViewBy p.now b.now (View.ElementString i) result }
{
    let at = element_place(b, p, i)?;
    let o = wire::u32_at(b, at) as usize;
    string(b, p.strings as usize, p.string_bytes as usize, o)
}

// Some rows of numbers from a reference on, in a table of count numbers, or 29.
fn array(b: &[u8], start: u32, count: u32, reference: u32, rows: u8) -> Result<Span, Refusal>
    ensures { ArrayShows b.now start count reference rows result }
{
    inside(b, start as usize, count as usize * 4)?;
    if (count as usize) < reference as usize + rows as usize {
        return wire::refused(29, 0);
    }
    Ok(Span {
        start: start as usize + reference as usize * 4,
        points: None,
        len: rows as usize * 4,
    })
}

fn element_array(b: &[u8], p: &SectionPlaces, i: usize) -> Result<Span, Refusal>
    ensures { ViewBy p.now b.now (View.ElementArray i) result }
{
    let at = element_place(b, p, i)?;
    let reference = wire::u32_at(b, at + 4);
    let rows = wire::byte_at(b, at + 8);
    array(b, p.indices, p.index_count, reference, rows)
}

fn entry_name(b: &[u8], p: &SectionPlaces) -> Result<Span, Refusal>
    ensures { ViewBy p.now b.now View.EntryName result }
{
    if p.edition < 3 {
        return wire::refused(26, 0);
    }
    let at = p.runtime as usize;
    inside(b, at, 52)?;
    let o = wire::u32_at(b, at + 48) as usize;
    string(b, p.strings as usize, p.string_bytes as usize, o)
}

fn stage_union(b: &[u8], p: &SectionPlaces) -> Result<Span, Refusal>
    ensures { ViewBy p.now b.now View.StageUnion result }
{
    let at = p.runtime as usize;
    inside(b, at, constants::edition_size(p.edition as usize))?;
    Ok(Span {
        start: at,
        points: None,
        len: 16,
    })
}

// How many words the masks before mask m have.
fn words_before(words: &[u32; 11], m: usize) -> usize
    requires { m ≤ 11 }
    ensures { (result ≡ sum (take m words.now)) × (result ≤ 47244640256) }
{
    let mut total = 0;
    for n in &words[..m] {
        total += *n as usize;
    }
    total
}

// Mask m.
pub fn mask(b: &[u8], p: SectionPlaces, m: usize) -> Result<Span, Refusal>
    ensures { ViewBy p b.now (View.Mask m) result }
{
    if p.edition < 1 || 10 < m {
        return wire::refused(26, 0);
    }
    let before = words_before(&p.mask_words, m);
    stretch(
        b,
        p.masks as usize + before * 4,
        p.mask_words[m] as usize * 4,
    )
}

// A view: where its bytes lie, with the code points of a string.
// Stays: a match, since the five views are data that a caller names, no steps (d).
pub fn view_span(b: &[u8], p: SectionPlaces, view: View) -> Result<Span, Refusal>
    ensures { ViewBy p b.now view result }
{
    match view {
        View::StageUnion => stage_union(b, &p),
        View::ElementString(i) => element_string(b, &p, i),
        View::ElementArray(i) => element_array(b, &p, i),
        View::EntryName => entry_name(b, &p),
        View::Mask(m) => mask(b, p, m),
    }
}

// Stays: a view and a section are asked for by calls of their own (d): their clauses speak of two definitions, `question_of` and `section_of`.
// The bytes of a view; none beside a refusal.
pub fn view_bytes<'a>(b: &'a [u8], p: SectionPlaces, view: View) -> &'a [u8]
    ensures { result.now ≡ bytes_of (shown_by p b.now (question_of view)) }
{
    match view_span(b, p, view) {
        Ok(s) => &b[s.start..s.start + s.len],
        Err(_) => &b[0..0],
    }
}

// The bytes of sections 3 to 6: none at edition read 0.
fn later(b: &[u8], er: u32, at: usize, n: usize) -> Result<Span, Refusal>
    ensures { StretchShows b.now (later_by er at) (later_by er n) result }
{
    if er < 1 {
        return stretch(b, 0, 0);
    }
    stretch(b, at, n)
}

// The bytes of a section that are handed out for writing again.
pub fn section_span(b: &[u8], p: SectionPlaces, section: Section) -> Result<Span, Refusal>
    ensures { SectionBy p b.now section result }
{
    let er = p.edition;
    match section {
        Section::RuntimeRecord => {
            stretch(b, p.runtime as usize, constants::edition_size(er as usize))
        }
        Section::ResourceRecords => stretch(
            b,
            p.resources as usize,
            bytes_of(p.resource_count, p.resource_size),
        ),
        Section::StringTable => later(b, er, p.strings as usize, p.string_bytes as usize),
        Section::IndexTable => later(b, er, p.indices as usize, p.index_count as usize * 4),
        Section::ElementRecords => later(
            b,
            er,
            p.elements as usize,
            bytes_of(p.element_count, p.element_size),
        ),
        Section::Masks => later(b, er, p.masks as usize, words_before(&p.mask_words, 11) * 4),
    }
}

// ---- where sections end

// Where the last resource record ends.
pub fn resources_end(p: SectionPlaces) -> usize
    ensures { result ≡ p.resources + p.resource_count * p.resource_size }
{
    row_place(p.resources, p.resource_count as usize, p.resource_size)
}

// Where the last mask ends.
pub fn masks_end(p: SectionPlaces) -> usize
    ensures { result ≡ p.masks + sum (take 11 p.mask_words) * 4 }
{
    p.masks as usize + words_before(&p.mask_words, 11) * 4
}

// ---- a record of data that stand further on

// A place, moved, as a number of 32 bits.
fn moved_place(by: u32, at: u32) -> u32
    ensures { result ≡ moved_place by at }
{
    ((by as usize + at as usize) % 4294967296) as u32
}

// The same of sections 3 to 6, which have no place at edition read 0.
fn later_place(er: u32, by: u32, at: u32) -> u32
    ensures { result ≡ choose (leb 1 er) (moved_place by at) at }
{
    if er < 1 {
        return at;
    }
    moved_place(by, at)
}

// The record of a container, by that of its PSV0 data and the place where they start.
pub fn moved(p: SectionPlaces, by: u32) -> SectionPlaces
    ensures { result ≡ moved_by by p }
{
    let er = p.edition;
    SectionPlaces {
        runtime: moved_place(by, p.runtime),
        resources: moved_place(by, p.resources),
        strings: later_place(er, by, p.strings),
        indices: later_place(er, by, p.indices),
        elements: later_place(er, by, p.elements),
        masks: later_place(er, by, p.masks),
        ..p
    }
}
