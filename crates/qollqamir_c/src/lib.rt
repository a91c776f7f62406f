// The library for programs in C: each call of qollqamir, exported under its name, with its promise again. include/qollqamir.h documents each.
#![tactic(auto)]

ghost use Rattle.std.specs.Prelude.{Ok, ◌≡◌, length};
ghost use Rattle.assembler_layout.specs.Answer as assembly;
ghost use Rattle.constants.specs.Edition.{file_edition_of};
ghost use Rattle.constants.specs.Name.{is_known};
ghost use Rattle.container.specs.Opened.{container_opening_of, container_places_of};
ghost use Rattle.container_layout.specs.Container.{psv_of, container_judged, container_answered, container_part, container_occurrence};
ghost use Rattle.dxil_layout.specs.Program.{program_of};
ghost use Rattle.dxil_report_layout.specs.Reported.{program_report_of};
ghost use Rattle.figures_layout.specs.Figures.{started, added, joined};
ghost use Rattle.part_table_layout.specs.Lookup.{part_of, occurrence_of};
ghost use Rattle.part_table_layout.specs.Pairs.{counted_of};
ghost use Rattle.part_table_layout.specs.Table.{table_of};
ghost use Rattle.places_layout.specs.Answers.{shown_by, info_by, resource_by, element_by, lengths_by};
ghost use Rattle.places_layout.specs.Placed.{opened_places};
ghost use Rattle.places_layout.specs.Read.{answered_by};
ghost use Rattle.psv0_layout.specs.Answers.{opening_of, info_answer_of, resource_answer_of, element_answer_of, lengths_answer_of, question_of, points_of, bytes_of};
ghost use Rattle.psv0_layout.specs.Judged.{opened};
ghost use Rattle.psv0_layout.specs.Layout.{edition_read_of, default_edition};
ghost use Rattle.psv0_layout.specs.Shown.{answered, queried};
ghost use Rattle.psv0_writer_layout.specs.Answer as writing;
ghost use Rattle.replacing_layout.specs.Answer.{replacement_of, output_of};
ghost use Rattle.root_signature_layout.specs.Root.{root_of, item_of, item_alone_of, range_answer_of, range_alone_of};
ghost use Rattle.root_signature_report_layout.specs.Reported.{root_report_of, item_report_of, range_report_of};
ghost use Rattle.settings_layout.specs.Given as settings_writing;
ghost use Rattle.settings_layout.specs.Shown.{settings_of, row_answer_of, row_alone_of, setting_answer_of};
ghost use Rattle.signature_layout.specs.Signature.{signature_of, element_of, alone_of, view_of as name_view};
ghost use Rattle.wire.specs.Number.{u32_at};
ghost use Rattle.qollqamir.specs.Boundary.{c_table, c_part, c_opening, c_psv_opening, c_opened, c_psv_opened, placed_section, c_info, c_resource, c_element, c_lengths, c_span, c_written, c_replaced, c_program, c_report, c_signature, c_signature_element, report_numbered, element_numbered, difference_numbered, c_root, c_root_report, c_item, c_range, c_settings, c_settings_row, c_settings_row_alone, c_setting, c_added, c_joined, view_of, section_verdict, section_shown, CShows};

use figures_layout::Figures;
use places_layout::SectionPlaces;
use qollqamir::{
    CAdded, CDifference, CElement, CInfo, CItem, CJoined, CLengths, COpened, COpening, CPart,
    CProgram, CRange, CReplaced, CReport, CResource, CRoot, CRootReport, CSetting, CSettings,
    CSettingsRow, CSettingsRowAlone, CSignature, CSignatureElement, CSignatureReport, CSpan,
    CTable, CWritten,
};

// The part table, 1 to 9.
#[unsafe(no_mangle)]
pub extern "C" fn qollqamir_table(b: &[u8]) -> CTable
    ensures { result ≡ c_table (table_of b.now) }
{
    qollqamir::qollqamir_table(b)
}

// The part table, 1 to 9, and how many pairs of names were compared.
#[unsafe(no_mangle)]
pub extern "C" fn qollqamir_table_counted(b: &[u8]) -> CTable
    ensures { result ≡ c_table (counted_of b.now) }
{
    qollqamir::qollqamir_table_counted(b)
}

// The first part with a name, from the table alone: 1 to 9, then 26.
#[unsafe(no_mangle)]
pub extern "C" fn qollqamir_table_part(b: &[u8], name: &[u8; 4]) -> CPart
    ensures { result ≡ c_part (part_of b.now (u32_at name.now 0)) }
{
    qollqamir::qollqamir_table_part(b, name)
}

// The part with a name and an occurrence, from the table alone: 1 to 9, then 26.
#[unsafe(no_mangle)]
pub extern "C" fn qollqamir_table_part_occurrence(
    b: &[u8],
    name: &[u8; 4],
    occurrence: usize,
) -> CPart
    ensures { result ≡ c_part (occurrence_of b.now (u32_at name.now 0) occurrence) }
{
    qollqamir::qollqamir_table_part_occurrence(b, name, occurrence)
}

// Whether a name is one of the 24 that are known.
#[unsafe(no_mangle)]
pub extern "C" fn qollqamir_known(name: &[u8; 4]) -> bool
    ensures { result ≡ is_known (u32_at name.now 0) }
{
    qollqamir::qollqamir_known(name)
}

// Opens a container at an edition.
#[unsafe(no_mangle)]
pub extern "C" fn qollqamir_open(b: &[u8], edition: usize) -> COpening
    ensures { result ≡ c_opening (container_opening_of edition b.now) }
{
    qollqamir::qollqamir_open(b, edition)
}

// Opens a container at the edition that is read where none is named.
#[unsafe(no_mangle)]
pub extern "C" fn qollqamir_open_default(b: &[u8]) -> COpening
    ensures { result ≡ c_opening (container_opening_of default_edition b.now) }
{
    qollqamir::qollqamir_open_default(b)
}

// The first part with a name, of a container that opens at an edition.
#[unsafe(no_mangle)]
pub extern "C" fn qollqamir_part(b: &[u8], edition: usize, name: &[u8; 4]) -> CPart
    ensures { result ≡ c_part (container_part edition b.now (u32_at name.now 0)) }
{
    qollqamir::qollqamir_part(b, edition, name)
}

// The part with a name and an occurrence, of a container that opens at an edition.
#[unsafe(no_mangle)]
pub extern "C" fn qollqamir_part_occurrence(
    b: &[u8],
    edition: usize,
    name: &[u8; 4],
    occurrence: usize,
) -> CPart
    ensures { result ≡ c_part (container_occurrence edition b.now (u32_at name.now 0) occurrence) }
{
    qollqamir::qollqamir_part_occurrence(b, edition, name, occurrence)
}

// The fields of the runtime record.
#[unsafe(no_mangle)]
pub extern "C" fn qollqamir_runtime_info(b: &[u8], edition: usize) -> CInfo
    ensures { result ≡ c_info (info_answer_of (container_judged edition b.now) (container_answered edition b.now)) }
{
    qollqamir::qollqamir_runtime_info(b, edition)
}

// Resource record i.
#[unsafe(no_mangle)]
pub extern "C" fn qollqamir_resource(b: &[u8], edition: usize, i: usize) -> CResource
    ensures { result ≡ c_resource (resource_answer_of (container_judged edition b.now) (container_answered edition b.now) i) }
{
    qollqamir::qollqamir_resource(b, edition, i)
}

// Element record i, over all lists.
#[unsafe(no_mangle)]
pub extern "C" fn qollqamir_element(b: &[u8], edition: usize, i: usize) -> CElement
    ensures { result ≡ c_element (element_answer_of (container_judged edition b.now) (container_answered edition b.now) i) }
{
    qollqamir::qollqamir_element(b, edition, i)
}

// The lists' lengths.
#[unsafe(no_mangle)]
pub extern "C" fn qollqamir_lengths(b: &[u8], edition: usize) -> CLengths
    ensures { result ≡ c_lengths (lengths_answer_of (container_judged edition b.now) (container_answered edition b.now)) }
{
    qollqamir::qollqamir_lengths(b, edition)
}

// A view by its kind and number.
#[unsafe(no_mangle)]
pub extern "C" fn qollqamir_view(b: &[u8], edition: usize, kind: u32, number: usize) -> CSpan
    ensures { CShows b.now (queried (container_judged edition b.now) (container_answered edition b.now (question_of (view_of kind number)))) (bytes_of (container_answered edition b.now (question_of (view_of kind number)))) (points_of (view_of kind number) (container_answered edition b.now)) result }
{
    qollqamir::qollqamir_view(b, edition, kind, number)
}

// The bytes of a section for writing again: 0 the runtime record, 1 resources, 2 strings, 3 indices, 4 elements, 5 masks; any other
// is one that isn't there.
#[unsafe(no_mangle)]
pub extern "C" fn qollqamir_section(b: &[u8], edition: usize, section: u32) -> CSpan
    ensures { CShows b.now (section_verdict section (container_judged edition b.now) (container_answered edition b.now (question_of (view_of 5 0)))) (section_shown section (container_judged edition b.now) (edition_read_of edition (psv_of b.now)) (psv_of b.now) (container_answered edition b.now (question_of (view_of 5 0)))) None result }
{
    qollqamir::qollqamir_section(b, edition, section)
}

// Opens a container at an edition, with the places of its PSV0 sections.
#[unsafe(no_mangle)]
pub extern "C" fn qollqamir_open_places(b: &[u8], edition: usize) -> COpened
    ensures { result ≡ c_opened (container_places_of edition b.now) }
{
    qollqamir::qollqamir_open_places(b, edition)
}

// Opens PSV0 data alone, with the places of its sections; it has no parts.
#[unsafe(no_mangle)]
pub extern "C" fn qollqamir_psv0_open_places(d: &[u8], edition: usize) -> COpened
    ensures { result ≡ c_psv_opened (opened_places edition d.now) }
{
    qollqamir::qollqamir_psv0_open_places(d, edition)
}

// The fields of the runtime record, by places. The two calls that open the bytes end here, so that they are put into C's struct in one place, and not
// copied from there.
#[unsafe(no_mangle)]
pub extern "C" fn qollqamir_places_runtime_info(b: &[u8], p: SectionPlaces) -> CInfo
    ensures { result ≡ c_info (info_by p b.now) }
{
    qollqamir::qollqamir_places_runtime_info(b, p)
}

// Resource record i, by places.
#[unsafe(no_mangle)]
pub extern "C" fn qollqamir_places_resource(b: &[u8], p: SectionPlaces, i: usize) -> CResource
    ensures { result ≡ c_resource (resource_by p b.now i) }
{
    qollqamir::qollqamir_places_resource(b, p, i)
}

// Element record i, over all lists, by places.
#[unsafe(no_mangle)]
pub extern "C" fn qollqamir_places_element(b: &[u8], p: SectionPlaces, i: usize) -> CElement
    ensures { result ≡ c_element (element_by p b.now i) }
{
    qollqamir::qollqamir_places_element(b, p, i)
}

// The lists' lengths, by places.
#[unsafe(no_mangle)]
pub extern "C" fn qollqamir_places_lengths(b: &[u8], p: SectionPlaces) -> CLengths
    ensures { result ≡ c_lengths (Ok (lengths_by p b.now)) }
{
    qollqamir::qollqamir_places_lengths(b, p)
}

// A view by its kind and number, by places. A mask takes no time but for finding it, so it is asked for by itself: one choice and no call.
#[unsafe(no_mangle)]
pub extern "C" fn qollqamir_places_view(
    b: &[u8],
    p: SectionPlaces,
    kind: u32,
    number: usize,
) -> CSpan
    ensures { CShows b.now (answered_by p b.now (question_of (view_of kind number))).verdict (bytes_of (shown_by p b.now (question_of (view_of kind number)))) (points_of (view_of kind number) (shown_by p b.now)) result }
{
    qollqamir::qollqamir_places_view(b, p, kind, number)
}

// The bytes of a section for writing again, by places; a section above 5 is one that isn't there.
#[unsafe(no_mangle)]
pub extern "C" fn qollqamir_places_section(b: &[u8], p: SectionPlaces, section: u32) -> CSpan
    ensures { CShows b.now (placed_section section p b.now).verdict (bytes_of (placed_section section p b.now).value) None result }
{
    qollqamir::qollqamir_places_section(b, p, section)
}

// Opens PSV0 data alone at an edition; it has no parts.
#[unsafe(no_mangle)]
pub extern "C" fn qollqamir_psv0_open(d: &[u8], edition: usize) -> COpening
    ensures { result ≡ c_psv_opening (opening_of (opened edition d.now) (file_edition_of (u32_at d.now 0)) (edition_read_of edition d.now)) }
{
    qollqamir::qollqamir_psv0_open(d, edition)
}

// The fields of the runtime record, of PSV0 data alone.
#[unsafe(no_mangle)]
pub extern "C" fn qollqamir_psv0_runtime_info(d: &[u8], edition: usize) -> CInfo
    ensures { result ≡ c_info (info_answer_of (opened edition d.now) (answered edition d.now)) }
{
    qollqamir::qollqamir_psv0_runtime_info(d, edition)
}

// Resource record i, of PSV0 data alone.
#[unsafe(no_mangle)]
pub extern "C" fn qollqamir_psv0_resource(d: &[u8], edition: usize, i: usize) -> CResource
    ensures { result ≡ c_resource (resource_answer_of (opened edition d.now) (answered edition d.now) i) }
{
    qollqamir::qollqamir_psv0_resource(d, edition, i)
}

// Element record i, over all lists, of PSV0 data alone.
#[unsafe(no_mangle)]
pub extern "C" fn qollqamir_psv0_element(d: &[u8], edition: usize, i: usize) -> CElement
    ensures { result ≡ c_element (element_answer_of (opened edition d.now) (answered edition d.now) i) }
{
    qollqamir::qollqamir_psv0_element(d, edition, i)
}

// The lists' lengths, of PSV0 data alone.
#[unsafe(no_mangle)]
pub extern "C" fn qollqamir_psv0_lengths(d: &[u8], edition: usize) -> CLengths
    ensures { result ≡ c_lengths (lengths_answer_of (opened edition d.now) (answered edition d.now)) }
{
    qollqamir::qollqamir_psv0_lengths(d, edition)
}

// A view by its kind and number, of PSV0 data alone.
#[unsafe(no_mangle)]
pub extern "C" fn qollqamir_psv0_view(d: &[u8], edition: usize, kind: u32, number: usize) -> CSpan
    ensures { CShows d.now (queried (opened edition d.now) (answered edition d.now (question_of (view_of kind number)))) (bytes_of (answered edition d.now (question_of (view_of kind number)))) (points_of (view_of kind number) (answered edition d.now)) result }
{
    qollqamir::qollqamir_psv0_view(d, edition, kind, number)
}

// The bytes of a section for writing again, of PSV0 data alone: 0 the runtime record, 1 resources, 2 strings, 3 indices, 4 elements, 5 masks; any other
// is one that isn't there.
#[unsafe(no_mangle)]
pub extern "C" fn qollqamir_psv0_section(d: &[u8], edition: usize, section: u32) -> CSpan
    ensures { CShows d.now (section_verdict section (opened edition d.now) (answered edition d.now (question_of (view_of 5 0)))) (section_shown section (opened edition d.now) (edition_read_of edition d.now) d.now (answered edition d.now (question_of (view_of 5 0)))) None result }
{
    qollqamir::qollqamir_psv0_section(d, edition, section)
}

// The data of a DXIL part alone: 40 to 42.
#[unsafe(no_mangle)]
pub extern "C" fn qollqamir_dxil_program(d: &[u8]) -> CProgram
    ensures { result ≡ c_program (program_of d.now) }
{
    qollqamir::qollqamir_dxil_program(d)
}

// The report on a container's DXIL part at an edition: what opening gives, then 40 to 42.
#[unsafe(no_mangle)]
pub extern "C" fn qollqamir_program(b: &[u8], edition: usize) -> CReport
    ensures { result ≡ c_report (program_report_of edition b.now) }
{
    qollqamir::qollqamir_program(b, edition)
}

// The data of a part ISG1, OSG1 or PSG1 alone: 43 to 45 and 52.
#[unsafe(no_mangle)]
pub extern "C" fn qollqamir_sg1_read(d: &[u8]) -> CSignature
    ensures { result ≡ c_signature (signature_of d.now) }
{
    qollqamir::qollqamir_sg1_read(d)
}

// Element i of such data: 43 to 45 and 52, then 26.
#[unsafe(no_mangle)]
pub extern "C" fn qollqamir_sg1_element(d: &[u8], i: usize) -> CSignatureElement
    ensures { result ≡ c_signature_element (element_of d.now i) }
{
    qollqamir::qollqamir_sg1_element(d, i)
}

// Element i of such data by itself: 43, 26, 44 of its own bytes, 45 and 52 of its own name.
#[unsafe(no_mangle)]
pub extern "C" fn qollqamir_sg1_element_alone(d: &[u8], i: usize) -> CSignatureElement
    ensures { result ≡ c_signature_element (alone_of d.now i) }
{
    qollqamir::qollqamir_sg1_element_alone(d, i)
}

// The name of element i of such data: 43 to 45 and 52, then 26.
#[unsafe(no_mangle)]
pub extern "C" fn qollqamir_sg1_name(d: &[u8], i: usize) -> CSpan
    ensures { result ≡ c_span (name_view (element_of d.now i)) }
{
    qollqamir::qollqamir_sg1_name(d, i)
}

// The report on a container's signature part at an edition, 0 ISG1, 1 OSG1, 2 PSG1: what opening gives, 26, then 43 to 45 and 52.
#[unsafe(no_mangle)]
pub extern "C" fn qollqamir_signature(b: &[u8], edition: usize, part: u32) -> CSignatureReport
    ensures { result ≡ report_numbered part edition b.now }
{
    qollqamir::qollqamir_signature(b, edition, part)
}

// Element i of the part, its name as a stretch of the container: those of the report, then 26.
#[unsafe(no_mangle)]
pub extern "C" fn qollqamir_signature_element(
    b: &[u8],
    edition: usize,
    part: u32,
    i: usize,
) -> CSignatureElement
    ensures { result ≡ c_signature_element (element_numbered part edition b.now i) }
{
    qollqamir::qollqamir_signature_element(b, edition, part, i)
}

// The name of element i of the part as a stretch of the container: those of the report, then 26.
#[unsafe(no_mangle)]
pub extern "C" fn qollqamir_signature_name(b: &[u8], edition: usize, part: u32, i: usize) -> CSpan
    ensures { result ≡ c_span (name_view (element_numbered part edition b.now i)) }
{
    qollqamir::qollqamir_signature_name(b, edition, part, i)
}

// The first named element of the part whose name differs from that of PSV0's element of the same list and number, or is missing there: after the
// refusals of the report.
#[unsafe(no_mangle)]
pub extern "C" fn qollqamir_signature_difference(b: &[u8], edition: usize, part: u32) -> CDifference
    ensures { result ≡ difference_numbered part edition b.now }
{
    qollqamir::qollqamir_signature_difference(b, edition, part)
}

// A settings file: 53 to 60.
#[unsafe(no_mangle)]
pub extern "C" fn qollqamir_settings_read(d: &[u8]) -> CSettings
    ensures { result ≡ c_settings (settings_of d.now) }
{
    qollqamir::qollqamir_settings_read(d)
}

// Row i of a settings file: 53 to 60, then 26.
#[unsafe(no_mangle)]
pub extern "C" fn qollqamir_settings_row(d: &[u8], i: usize) -> CSettingsRow
    ensures { result ≡ c_settings_row (row_answer_of d.now i) }
{
    qollqamir::qollqamir_settings_row(d, i)
}

// The row at a byte of a settings file by itself, after a row of version last: 53 to 55 and 57 to 59 of its own.
#[unsafe(no_mangle)]
pub extern "C" fn qollqamir_settings_row_alone(d: &[u8], at: usize, last: u32) -> CSettingsRowAlone
    ensures { result ≡ c_settings_row_alone (row_alone_of d.now at last) }
{
    qollqamir::qollqamir_settings_row_alone(d, at, last)
}

// The value of a key at a version: 53 to 60; unset where no row tells it.
#[unsafe(no_mangle)]
pub extern "C" fn qollqamir_settings_value(d: &[u8], key: u32, version: u32) -> CSetting
    ensures { result ≡ c_setting (setting_answer_of d.now key version) }
{
    qollqamir::qollqamir_settings_value(d, key, version)
}

// The data of a part RTS0 alone: 46 to 51.
#[unsafe(no_mangle)]
pub extern "C" fn qollqamir_rts0_read(d: &[u8]) -> CRoot
    ensures { result ≡ c_root (root_of d.now) }
{
    qollqamir::qollqamir_rts0_read(d)
}

// Item i of such data: 46 to 51, then 26.
#[unsafe(no_mangle)]
pub extern "C" fn qollqamir_rts0_item(d: &[u8], i: usize) -> CItem
    ensures { result ≡ c_item (item_of d.now i) }
{
    qollqamir::qollqamir_rts0_item(d, i)
}

// Item i of such data by itself: 46, 47, 26, then 48 to 51 of its own.
#[unsafe(no_mangle)]
pub extern "C" fn qollqamir_rts0_item_alone(d: &[u8], i: usize) -> CItem
    ensures { result ≡ c_item (item_alone_of d.now i) }
{
    qollqamir::qollqamir_rts0_item_alone(d, i)
}

// Range j of item i of such data: 46 to 51, then 26.
#[unsafe(no_mangle)]
pub extern "C" fn qollqamir_rts0_range(d: &[u8], i: usize, j: usize) -> CRange
    ensures { result ≡ c_range (range_answer_of d.now i j) }
{
    qollqamir::qollqamir_rts0_range(d, i, j)
}

// Range j of item i of such data by itself: what the item by itself gives, then 26.
#[unsafe(no_mangle)]
pub extern "C" fn qollqamir_rts0_range_alone(d: &[u8], i: usize, j: usize) -> CRange
    ensures { result ≡ c_range (range_alone_of d.now i j) }
{
    qollqamir::qollqamir_rts0_range_alone(d, i, j)
}

// The report on a container's root signature at an edition: what opening gives, 26, then 46 to 51.
#[unsafe(no_mangle)]
pub extern "C" fn qollqamir_root_signature(b: &[u8], edition: usize) -> CRootReport
    ensures { result ≡ c_root_report (root_report_of edition b.now) }
{
    qollqamir::qollqamir_root_signature(b, edition)
}

// Item i of it: those of the report, then 26.
#[unsafe(no_mangle)]
pub extern "C" fn qollqamir_root_item(b: &[u8], edition: usize, i: usize) -> CItem
    ensures { result ≡ c_item (item_report_of edition b.now i) }
{
    qollqamir::qollqamir_root_item(b, edition, i)
}

// Range j of item i of it: those of the report, then 26.
#[unsafe(no_mangle)]
pub extern "C" fn qollqamir_root_range(b: &[u8], edition: usize, i: usize, j: usize) -> CRange
    ensures { result ≡ c_range (range_report_of edition b.now i j) }
{
    qollqamir::qollqamir_root_range(b, edition, i, j)
}

// Writes PSV0 data.
#[unsafe(no_mangle)]
pub extern "C" fn qollqamir_write_psv0(
    edition: usize,
    runtime: &[u8],
    resources: &[u8],
    strings: &[u8],
    indices: &[u8],
    elements: &[u8],
    masks: &[u8],
    out: &mut [u8],
) -> CWritten
    ensures value { result ≡ c_written (writing.answer edition (writing.given runtime.now resources.now strings.now indices.now elements.now masks.now) (length out.old)) }
    ensures out_after { out.new ≡ writing.output edition (writing.given runtime.now resources.now strings.now indices.now elements.now masks.now) out.old }
{
    qollqamir::qollqamir_write_psv0(
        edition, runtime, resources, strings, indices, elements, masks, out,
    )
}

// Assembles a container.
#[unsafe(no_mangle)]
pub extern "C" fn qollqamir_assemble(
    names: &[u8],
    sizes: &[u32],
    data: &[u8],
    digest: &[u8],
    out: &mut [u8],
) -> CWritten
    ensures value { result ≡ c_written (assembly.answer (assembly.given names.now sizes.now «data».now digest.now) (length out.old)) }
    ensures out_after { out.new ≡ assembly.output (assembly.given names.now sizes.now «data».now digest.now) out.old }
{
    qollqamir::qollqamir_assemble(names, sizes, data, digest, out)
}

// A container with other PSV0 data in the place of its own.
#[unsafe(no_mangle)]
pub extern "C" fn qollqamir_replace_psv0(
    b: &[u8],
    edition: usize,
    new: &[u8],
    out: &mut [u8],
) -> CReplaced
    ensures value { result ≡ c_replaced (replacement_of edition b.now new.now (length out.old)) }
    ensures out_after { out.new ≡ output_of edition b.now new.now out.old }
{
    qollqamir::qollqamir_replace_psv0(b, edition, new, out)
}

// Writes a settings file from rows as numbers, three a row.
#[unsafe(no_mangle)]
pub extern "C" fn qollqamir_write_settings(rows: &[u32], out: &mut [u8]) -> CWritten
    ensures value { result ≡ c_written (settings_writing.answer rows.now (length out.old)) }
    ensures out_after { out.new ≡ settings_writing.output rows.now out.old }
{
    qollqamir::qollqamir_write_settings(rows, out)
}

// Figures of no container, at an edition.
#[unsafe(no_mangle)]
pub extern "C" fn qollqamir_figures_start(edition: usize) -> Figures
    ensures { result ≡ started edition }
{
    qollqamir::qollqamir_figures_start(edition)
}

// One container more, opened at the figures' edition.
#[unsafe(no_mangle)]
pub extern "C" fn qollqamir_figures_add(f: Figures, b: &[u8]) -> CAdded
    ensures { result ≡ c_added f (added f b.now) }
{
    qollqamir::qollqamir_figures_add(f, b)
}

// Two figures joined.
#[unsafe(no_mangle)]
pub extern "C" fn qollqamir_figures_join(f: Figures, g: Figures) -> CJoined
    ensures { result ≡ c_joined f (joined f g) }
{
    qollqamir::qollqamir_figures_join(f, g)
}
