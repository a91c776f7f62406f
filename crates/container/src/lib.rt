// The opening of a whole container and the queries on its bytes, above the part table and the PSV0 reader through their promises.
// A query gives what opening gives, 25, 1 to 9, 10, 11 and 12 to 24, then 26. Beside a refusal nothing of the file is shown.
#![tactic(auto)]

ghost use Rattle.std.specs.Prelude.{◌≡◌, ◌+◌, ◌≤◌};
ghost use Rattle.wire.specs.Number.{u32_at};
ghost use Rattle.part_table_layout.specs.Three.{three_of};
ghost use Rattle.psv0_layout.specs.Answers.{info_answer_of, resource_answer_of, element_answer_of, lengths_answer_of, question_of, points_of, section_of, bytes_of, bytes_beside, SpanShows};
ghost use Rattle.psv0_layout.specs.Handed.{handed};
ghost use Rattle.psv0_layout.specs.Layout.{edition_read_of, default_edition};
ghost use Rattle.psv0_layout.specs.Shown.{queried};
ghost use Rattle.container_layout.specs.Container.{dxil, psv0, psv_of, container_judged, container_answered, container_part, container_occurrence, part_data_of, occurrence_data_of};
ghost use Rattle.container.specs.Opened.{psv_part_of, container_places_of, container_opening_of};

use part_table_layout::{Part, ThreeParts};
use places_layout::SectionPlaces;
use psv0_layout::{ElementRecord, ListLengths, ResourceRecord, RuntimeInfo, Section, Span, View};
use wire::Refusal;

// What an opening tells: the number of parts, the file's edition and the edition read.
#[derive(Clone, Copy)]
pub struct ContainerOpening {
    pub parts: usize,
    pub file_edition: usize,
    pub edition_read: usize,
}

// The same with the places of the PSV0 sections, as offsets in the container, for queries by them; the edition read is theirs.
#[derive(Clone, Copy)]
pub struct ContainerPlaces {
    pub parts: usize,
    pub file_edition: usize,
    pub places: SectionPlaces,
}

// The number of parts, where the PSV0 data start and end, and what a lookup gives of one more name.
#[derive(Clone, Copy)]
struct PsvPart {
    parts: usize,
    start: usize,
    end: usize,
    asked: Result<Part, Refusal>,
}

// The parts DXIL and PSV0, and the first part with the name x: no table is built.
fn parts_for(b: &[u8], x: u32) -> Result<ThreeParts, Refusal>
    ensures { result ≡ three_of b.now dxil psv0 x }
{
    part_table::three_parts(b, wire::u32_at(b"DXIL", 0), wire::u32_at(b"PSV0", 0), x)
}

// The PSV0 part, and the first part with the name x: refusals 25, 1 to 9, 10 and 11.
fn find_both(b: &[u8], edition: usize, x: u32) -> Result<PsvPart, Refusal>
    ensures { result ≡ psv_part_of edition b.now x }
{
    if 3 < edition {
        return wire::refused(25, 0);
    }
    let t = parts_for(b, x)?;
    let Ok(program) = t.first else {
        return wire::refused(10, 0);
    };
    if program.size == 0 {
        return wire::refused(10, 0);
    }
    let Ok(psv) = t.second else {
        return wire::refused(11, 0);
    };
    let start = psv.offset + 8;
    Ok(PsvPart {
        parts: t.count,
        start,
        end: start + psv.size,
        asked: t.third,
    })
}

// The PSV0 part alone.
fn find_psv0(b: &[u8], edition: usize) -> Result<PsvPart, Refusal>
    ensures { result ≡ psv_part_of edition b.now psv0 }
{
    find_both(b, edition, wire::u32_at(b"PSV0", 0))
}

// Opens a container at an edition.
pub fn open(b: &[u8], edition: usize) -> Result<ContainerOpening, Refusal>
    ensures { result ≡ container_opening_of edition b.now }
{
    let p = find_psv0(b, edition)?;
    let o = psv0::open(&b[p.start..p.end], edition)?;
    Ok(ContainerOpening {
        parts: p.parts,
        file_edition: o.file_edition,
        edition_read: o.edition_read,
    })
}

// Opens a container at the edition that is read where none is named.
pub fn open_default(b: &[u8]) -> Result<ContainerOpening, Refusal>
    ensures { result ≡ container_opening_of default_edition b.now }
{
    open(b, 3)
}

// Opens a container at an edition, and hands back the places of its PSV0 sections.
pub fn open_places(b: &[u8], edition: usize) -> Result<ContainerPlaces, Refusal>
    ensures { result ≡ container_places_of edition b.now }
{
    let p = find_psv0(b, edition)?;
    let o = psv0::open_places(&b[p.start..p.end], edition)?;
    Ok(ContainerPlaces {
        parts: p.parts,
        file_edition: o.file_edition,
        places: places::moved(o.places, p.start as u32),
    })
}

// The fields of the runtime record.
pub fn runtime_info(b: &[u8], edition: usize) -> Result<RuntimeInfo, Refusal>
    ensures { result ≡ info_answer_of (container_judged edition b.now) (container_answered edition b.now) }
{
    let p = find_psv0(b, edition)?;
    psv0::runtime_info(&b[p.start..p.end], edition)
}

// Resource record i.
pub fn resource(b: &[u8], edition: usize, i: usize) -> Result<ResourceRecord, Refusal>
    ensures { result ≡ resource_answer_of (container_judged edition b.now) (container_answered edition b.now) i }
{
    let p = find_psv0(b, edition)?;
    psv0::resource(&b[p.start..p.end], edition, i)
}

// Element record i, numbered over all lists.
pub fn element(b: &[u8], edition: usize, i: usize) -> Result<ElementRecord, Refusal>
    ensures { result ≡ element_answer_of (container_judged edition b.now) (container_answered edition b.now) i }
{
    let p = find_psv0(b, edition)?;
    psv0::element(&b[p.start..p.end], edition, i)
}

// The lists' lengths.
pub fn lengths(b: &[u8], edition: usize) -> Result<ListLengths, Refusal>
    ensures { result ≡ lengths_answer_of (container_judged edition b.now) (container_answered edition b.now) }
{
    let p = find_psv0(b, edition)?;
    psv0::lengths(&b[p.start..p.end], edition)
}

// A stretch of the PSV0 data, which start at a place, as one of the container.
fn moved(s: Span, by: usize) -> Span
    requires { by + s.start ≤ 16777216 }
    ensures { result ≡ record { start = by + s.start; points = s.points; len = s.len } }
{
    Span {
        start: by + s.start,
        points: s.points,
        len: s.len,
    }
}

// A view, as a stretch of the container, with the code points of a string.
pub fn view_span(b: &[u8], edition: usize, view: View) -> Result<Span, Refusal>
    ensures { SpanShows b.now (queried (container_judged edition b.now) (container_answered edition b.now (question_of view))) (bytes_of (container_answered edition b.now (question_of view))) (points_of view (container_answered edition b.now)) result }
{
    let p = find_psv0(b, edition)?;
    let s = psv0::view_span(&b[p.start..p.end], edition, view)?;
    Ok(moved(s, p.start))
}

// Stays: a view and a section are asked for by calls of their own (d): their clauses speak of two definitions, `question_of` and `section_of`.
// The bytes of a section for writing again, as a stretch of the container.
pub fn section_span(b: &[u8], edition: usize, section: Section) -> Result<Span, Refusal>
    ensures { SpanShows b.now (container_judged edition b.now) (bytes_beside (container_judged edition b.now) (handed (edition_read_of edition (psv_of b.now)) (psv_of b.now) (section_of section))) None result }
{
    let p = find_psv0(b, edition)?;
    let s = psv0::section_span(&b[p.start..p.end], edition, section)?;
    Ok(moved(s, p.start))
}

// A view's bytes, a part of the caller's slice: none where the query refuses.
pub fn view_bytes<'a>(b: &'a [u8], edition: usize, view: View) -> &'a [u8]
    ensures { result.now ≡ bytes_of (container_answered edition b.now (question_of view)) }
{
    match view_span(b, edition, view) {
        Ok(s) => &b[s.start..s.start + s.len],
        Err(_) => &b[0..0],
    }
}

// The bytes of a section for writing again, a part of the caller's slice: none where the opening refuses.
pub fn section_bytes<'a>(b: &'a [u8], edition: usize, section: Section) -> &'a [u8]
    ensures { result.now ≡ bytes_beside (container_judged edition b.now) (handed (edition_read_of edition (psv_of b.now)) (psv_of b.now) (section_of section)) }
{
    match section_span(b, edition, section) {
        Ok(s) => &b[s.start..s.start + s.len],
        Err(_) => &b[0..0],
    }
}

// The first part with a name: its number, where its header starts and its data size.
pub fn part(b: &[u8], edition: usize, name: &[u8; 4]) -> Result<Part, Refusal>
    ensures { result ≡ container_part edition b.now (u32_at name.now 0) }
{
    let p = find_both(b, edition, wire::u32_at(name, 0))?;
    psv0::open(&b[p.start..p.end], edition)?;
    p.asked
}

// The part with a name and an occurrence.
pub fn part_occurrence(
    b: &[u8],
    edition: usize,
    name: &[u8; 4],
    occurrence: usize,
) -> Result<Part, Refusal>
    ensures { result ≡ container_occurrence edition b.now (u32_at name.now 0) occurrence }
{
    part_table::later_part(b, wire::u32_at(name, 0), part(b, edition, name), occurrence)
}

// The data of one part, a part of the caller's slice: no bytes where the query refuses.
pub fn part_bytes_occurrence<'a>(
    b: &'a [u8],
    edition: usize,
    name: &[u8; 4],
    occurrence: usize,
) -> &'a [u8]
    ensures { result.now ≡ occurrence_data_of edition b.now (u32_at name.now 0) occurrence }
{
    match part_occurrence(b, edition, name, occurrence) {
        Ok(p) => {
            let start = p.offset + 8;
            &b[start..start + p.size]
        }
        Err(_) => &b[0..0],
    }
}

// The data of the first part with a name.
pub fn part_bytes<'a>(b: &'a [u8], edition: usize, name: &[u8; 4]) -> &'a [u8]
    ensures { result.now ≡ part_data_of edition b.now (u32_at name.now 0) }
{
    part_bytes_occurrence(b, edition, name, 0)
}
