// The reader of PSV0 data alone: the opening and the queries. Each gives what opening gives, 25, 2 and 12 to 24, then 26: an opening with the places of the
// sections, and then a query by them.
#![tactic(auto)]

ghost use Rattle.std.specs.Prelude.{◌≡◌, get_or};
ghost use Rattle.constants.specs.Edition.{file_edition_of};
ghost use Rattle.wire.specs.Number.{u32_at};
ghost use Rattle.psv0_layout.specs.Field.{mask_words_of};
ghost use Rattle.psv0_layout.specs.Handed.{handed};
ghost use Rattle.psv0_layout.specs.Judged.{opened};
ghost use Rattle.psv0_layout.specs.Layout.{edition_read_of};
ghost use Rattle.psv0_layout.specs.Shown.{answered, queried};
ghost use Rattle.psv0_layout.specs.Answers.{opening_of, info_answer_of, resource_answer_of, element_answer_of, lengths_answer_of, question_of, points_of, section_of, bytes_of, bytes_beside, SpanShows};
ghost use Rattle.places_layout.specs.Placed.{places_at, opened_places};
ghost use Rattle.psv0.specs.Reading.{Reading};

use places_layout::{PlacesAnswer, SectionPlaces};
use psv0_layout::{
    ElementRecord, ListLengths, Opening, ResourceRecord, RuntimeInfo, Section, Span, View,
};
use psv0_sections::Places;
use wire::Refusal;

// ---- the places of accepted data, as a record

// The words of mask m of a runtime record.
fn mask_word(r: &[u8], m: usize) -> u32
    ensures { result ≡ get_or (mask_words_of r.now) m 0 }
{
    psv0_sections::mask_words(r, m) as u32
}

fn record_of(d: &[u8], p: Places) -> SectionPlaces
    requires { Reading d.now p }
    ensures { result ≡ places_at 0 p.edition d.now }
{
    // Stays: both records are written out. Tried and slower by half for a query that opens the data: `..places::none()`, and the words of the
    // masks in a loop, where each mask's number is not known when compiled.
    if p.edition == 0 {
        return SectionPlaces {
            edition: 0,
            runtime: 4,
            stage: 0,
            resources: p.resources as u32,
            resource_count: p.resource_count as u32,
            resource_size: p.resource_size as u32,
            strings: 0,
            string_bytes: 0,
            indices: 0,
            index_count: 0,
            elements: 0,
            element_count: 0,
            element_size: 0,
            masks: 0,
            mask_words: [0; 11],
        };
    }
    let r = &d[4..40];
    SectionPlaces {
        edition: p.edition as u32,
        runtime: 4,
        stage: wire::byte_at(r, 24) as u32,
        resources: p.resources as u32,
        resource_count: p.resource_count as u32,
        resource_size: p.resource_size as u32,
        strings: p.strings as u32,
        string_bytes: p.string_bytes as u32,
        indices: p.indices as u32,
        index_count: p.index_count as u32,
        elements: p.elements as u32,
        element_count: p.element_count as u32,
        element_size: p.element_size as u32,
        masks: p.masks as u32,
        mask_words: [
            mask_word(r, 0),
            mask_word(r, 1),
            mask_word(r, 2),
            mask_word(r, 3),
            mask_word(r, 4),
            mask_word(r, 5),
            mask_word(r, 6),
            mask_word(r, 7),
            mask_word(r, 8),
            mask_word(r, 9),
            mask_word(r, 10),
        ],
    }
}

// ---- the public calls

// Opens PSV0 data.
pub fn open(d: &[u8], edition: usize) -> Result<Opening, Refusal>
    ensures { result ≡ opening_of (opened edition d.now) (file_edition_of (u32_at d.now 0)) (edition_read_of edition d.now) }
{
    let p = psv0_sections::locate(d, edition)?;
    Ok(Opening {
        file_edition: constants::edition_of(p.size),
        edition_read: p.edition,
    })
}

// Opens PSV0 data, and hands back the places of its sections.
pub fn open_places(d: &[u8], edition: usize) -> Result<PlacesAnswer, Refusal>
    ensures { result ≡ opened_places edition d.now }
{
    let p = psv0_sections::locate(d, edition)?;
    Ok(PlacesAnswer {
        file_edition: constants::edition_of(p.size),
        places: record_of(d, p),
    })
}

// The fields of the runtime record.
pub fn runtime_info(d: &[u8], edition: usize) -> Result<RuntimeInfo, Refusal>
    ensures { result ≡ info_answer_of (opened edition d.now) (answered edition d.now) }
{
    let o = open_places(d, edition)?;
    places::runtime_info(d, o.places)
}

// Resource record i.
pub fn resource(d: &[u8], edition: usize, i: usize) -> Result<ResourceRecord, Refusal>
    ensures { result ≡ resource_answer_of (opened edition d.now) (answered edition d.now) i }
{
    let o = open_places(d, edition)?;
    places::resource(d, o.places, i)
}

// Element record i, numbered over all lists.
pub fn element(d: &[u8], edition: usize, i: usize) -> Result<ElementRecord, Refusal>
    ensures { result ≡ element_answer_of (opened edition d.now) (answered edition d.now) i }
{
    let o = open_places(d, edition)?;
    places::element(d, o.places, i)
}

// The lists' lengths.
pub fn lengths(d: &[u8], edition: usize) -> Result<ListLengths, Refusal>
    ensures { result ≡ lengths_answer_of (opened edition d.now) (answered edition d.now) }
{
    let o = open_places(d, edition)?;
    Ok(places::lengths(d, o.places))
}

// Where the bytes of a view lie, with the code points of a string.
pub fn view_span(d: &[u8], edition: usize, view: View) -> Result<Span, Refusal>
    ensures { SpanShows d.now (queried (opened edition d.now) (answered edition d.now (question_of view))) (bytes_of (answered edition d.now (question_of view))) (points_of view (answered edition d.now)) result }
{
    let o = open_places(d, edition)?;
    places::view_span(d, o.places, view)
}

// The bytes of a view; none beside a refusal.
pub fn view_bytes<'a>(d: &'a [u8], edition: usize, view: View) -> &'a [u8]
    ensures { result.now ≡ bytes_of (answered edition d.now (question_of view)) }
{
    match view_span(d, edition, view) {
        Ok(s) => &d[s.start..s.start + s.len],
        Err(_) => &d[0..0],
    }
}

// Stays: a view and a section are asked for by calls of their own (d): their clauses speak of two definitions, `question_of` and `section_of`.
// Where the bytes lie that are handed out of a section.
pub fn section_span(d: &[u8], edition: usize, section: Section) -> Result<Span, Refusal>
    ensures { SpanShows d.now (opened edition d.now) (bytes_beside (opened edition d.now) (handed (edition_read_of edition d.now) d.now (section_of section))) None result }
{
    let o = open_places(d, edition)?;
    places::section_span(d, o.places, section)
}

// The bytes that are handed out of a section; none beside a refusal.
pub fn section_bytes<'a>(d: &'a [u8], edition: usize, section: Section) -> &'a [u8]
    ensures { result.now ≡ bytes_beside (opened edition d.now) (handed (edition_read_of edition d.now) d.now (section_of section)) }
{
    match section_span(d, edition, section) {
        Ok(s) => &d[s.start..s.start + s.len],
        Err(_) => &d[0..0],
    }
}
