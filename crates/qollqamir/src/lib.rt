// The library for programs in C and Rust: every public call, with plain structs for its answers. A view crosses as where it starts and its
// length. Beside a refusal every number is 0 and no field is set. include/qollqamir.h documents each call.
// No struct has padding: a field is as wide as its place, so that each byte of an answer is a byte of a field that the promise names.
#![tactic(auto)]

ghost use Rattle.std.specs.Prelude.{Ok, Some, ltb, ◌≡◌, ◌<◌, length};
ghost use Rattle.assembler_layout.specs.Answer as assembly;
ghost use Rattle.constants.specs.Edition.{file_edition_of};
ghost use Rattle.constants.specs.Name.{is_known};
ghost use Rattle.container.specs.Opened.{container_opening_of, container_places_of};
ghost use Rattle.container_layout.specs.Container.{psv_of, container_judged, container_answered, container_part, container_occurrence};
ghost use Rattle.dxil_layout.specs.Program.{program_of};
ghost use Rattle.dxil_report_layout.specs.Reported.{program_report_of};
ghost use Rattle.figures_layout.specs.Figures.{started, added, joined};
ghost use Rattle.part_table_layout.specs.Lookup.{part_of, occurrence_of};
ghost use Rattle.part_table_layout.specs.Pairs.{table_asked, counted_of};
ghost use Rattle.part_table_layout.specs.Table.{table_of};
ghost use Rattle.places_layout.specs.Answers.{shown_by, info_by, resource_by, element_by, lengths_by};
ghost use Rattle.places_layout.specs.Placed.{opened_places};
ghost use Rattle.places_layout.specs.Read.{answered_by};
ghost use Rattle.psv0_layout.specs.Answers.{opening_of, info_answer_of, resource_answer_of, element_answer_of, lengths_answer_of, question_of, points_of, bytes_of, bytes_beside};
ghost use Rattle.psv0_layout.specs.Judged.{opened};
ghost use Rattle.psv0_layout.specs.Layout.{edition_read_of, default_edition};
ghost use Rattle.psv0_layout.specs.Shown.{answered, queried};
ghost use Rattle.psv0_writer_layout.specs.Answer as writing;
ghost use Rattle.replacing_layout.specs.Answer.{replacement_of, output_of};
ghost use Rattle.root_signature_layout.specs.Root.{root_of, item_of, item_alone_of, range_answer_of, range_alone_of};
ghost use Rattle.root_signature_report_layout.specs.Reported.{root_report_of, item_report_of, range_report_of};
ghost use Rattle.settings_layout.specs.Given as settings_writing;
ghost use Rattle.settings_layout.specs.Shown.{settings_of, row_answer_of, row_alone_of, setting_answer_of};
ghost use Rattle.signature_layout.specs.Signature.{signature_of, element_of, alone_of, view_of as name_view};
ghost use Rattle.wire.specs.Choice.{choose};
ghost use Rattle.wire.specs.Number.{u32_at};
ghost use Rattle.qollqamir.specs.Boundary.{c_refusal, c_field, pairs_field, not_opened, c_table, c_part, c_opening, c_psv_opening, c_opened, c_psv_opened, placed_section, c_info, c_resource, c_element, c_lengths, c_span, c_written, c_replaced, stages_number, c_header, c_program, c_report, c_signature, c_signature_report, c_signature_element, c_difference, part_numbered, no_part, report_numbered, element_numbered, difference_numbered, c_root, c_root_report, item_fields, c_item, c_range, c_settings, c_settings_row, c_settings_row_alone, c_setting, c_judged, c_added, c_joined, view_of, section_numbered, section_verdict, section_shown, CShows};

use container::ContainerOpening;
use dxil_layout::{Program, ProgramHeader};
use dxil_report_layout::{ProgramReport, Stages};
use figures_layout::{Addition, Figures, Full, JoinError};
use part_table_layout::{Part, Table};
use places_layout::SectionPlaces;
use psv0_layout::{
    ElementRecord, ListLengths, Opening, ResourceRecord, RuntimeInfo, Section, Span, View,
};
use root_signature_layout::{DescriptorRange, Item, RootHeader};
use root_signature_report_layout::RootReport;
use settings_layout::{Row, RowAlone, Settings};
use signature_layout::SignatureAnswer;
use signature_report_layout::{SignaturePart, SignatureReport};
use wire::Refusal;

// Stays: each answer is a struct of C's header, with a conversion of its own from what the library answers (a: include/qollqamir.h).
// A verdict: the refusal's number, 0 where the call accepts, and its place.
#[repr(C)]
#[derive(Clone, Copy, Default)]
pub struct CVerdict {
    pub number: usize,
    pub place: usize,
}

// A value: 1 where it is set, 0 where it is not, and its number, 0 where it is not.
#[repr(C)]
#[derive(Clone, Copy, Default)]
pub struct CField {
    pub set: u32,
    pub value: u32,
}

const UNSET: CField = CField { set: 0, value: 0 };

// A part table.
// Stays: five arrays side by side, as C's header has them (a).
#[repr(C)]
#[derive(Clone, Copy)]
pub struct CTable {
    pub verdict: CVerdict,
    pub count: usize,
    pub pairs: CField,
    pub names: [u32; 96],
    pub offsets: [u32; 96],
    pub sizes: [u32; 96],
    pub occurrences: [u32; 96],
    pub gaps: [u32; 96],
}

// A part: its number, where its header starts and its data size.
#[repr(C)]
#[derive(Clone, Copy, Default)]
pub struct CPart {
    pub verdict: CVerdict,
    pub number: usize,
    pub offset: usize,
    pub size: usize,
}

// An opening: the number of parts, the file's edition and the edition read.
#[repr(C)]
#[derive(Clone, Copy, Default)]
pub struct COpening {
    pub verdict: CVerdict,
    pub parts: usize,
    pub file_edition: usize,
    pub edition_read: usize,
}

// An opening with the places of the PSV0 sections.
#[repr(C)]
#[derive(Clone, Copy)]
pub struct COpened {
    pub verdict: CVerdict,
    pub parts: u32,
    pub file_edition: u32,
    pub edition_read: u32,
    pub places: SectionPlaces,
}

// The fields of the runtime record.
#[repr(C)]
#[derive(Clone, Copy, Default)]
pub struct CInfo {
    pub verdict: CVerdict,
    pub minimum_wave_lanes: CField,
    pub maximum_wave_lanes: CField,
    pub stage: CField,
    pub uses_view_id: CField,
    pub max_vertex_count: CField,
    pub patch_vectors: CField,
    pub mesh_topology: CField,
    pub input_elements: CField,
    pub output_elements: CField,
    pub patch_elements: CField,
    pub input_vectors: CField,
    pub output_vectors_0: CField,
    pub output_vectors_1: CField,
    pub output_vectors_2: CField,
    pub output_vectors_3: CField,
    pub threads_x: CField,
    pub threads_y: CField,
    pub threads_z: CField,
    pub entry_name_offset: CField,
}

// A resource binding's record.
#[repr(C)]
#[derive(Clone, Copy, Default)]
pub struct CResource {
    pub verdict: CVerdict,
    pub binding_type: CField,
    pub space: CField,
    pub lower_bound: CField,
    pub upper_bound: CField,
    pub kind: CField,
    pub flags: CField,
}

// A signature element's record.
#[repr(C)]
#[derive(Clone, Copy, Default)]
pub struct CElement {
    pub verdict: CVerdict,
    pub name_offset: CField,
    pub index_reference: CField,
    pub rows: CField,
    pub start_row: CField,
    pub columns: CField,
    pub start_column: CField,
    pub allocated: CField,
    pub semantic_kind: CField,
    pub component_type: CField,
    pub interpolation: CField,
    pub dynamic_mask: CField,
    pub stream: CField,
    pub reserved: CField,
}

// The lists' lengths.
#[repr(C)]
#[derive(Clone, Copy, Default)]
pub struct CLengths {
    pub verdict: CVerdict,
    pub resources: CField,
    pub strings: CField,
    pub indices: CField,
    pub elements: CField,
}

// A stretch of the caller's bytes. Where it is a string, 1 and its code points; else zeros.
#[repr(C)]
#[derive(Clone, Copy, Default)]
pub struct CSpan {
    pub verdict: CVerdict,
    pub start: usize,
    pub len: usize,
    pub is_string: usize,
    pub points: usize,
}

// What a writer did: the length of its result.
#[repr(C)]
#[derive(Clone, Copy, Default)]
pub struct CWritten {
    pub verdict: CVerdict,
    pub len: usize,
}

// A container with other PSV0 data: the length of the result, and the places of its PSV0 sections.
#[repr(C)]
#[derive(Clone, Copy)]
pub struct CReplaced {
    pub verdict: CVerdict,
    pub len: u32,
    pub places: SectionPlaces,
}

// The fields of the program header and of the bitcode header.
#[repr(C)]
#[derive(Clone, Copy, Default)]
pub struct CHeader {
    pub version_major: u32,
    pub version_minor: u32,
    pub stage: u32,
    pub words: u32,
    pub bitcode_major: u32,
    pub bitcode_minor: u32,
    pub bitcode_offset: u32,
    pub bitcode_size: u32,
}

// The data of a DXIL part: the header's fields, and the bitcode as a stretch of them.
#[repr(C)]
#[derive(Clone, Copy, Default)]
pub struct CProgram {
    pub verdict: CVerdict,
    pub header: CHeader,
    pub start: usize,
    pub len: usize,
}

// The report on a container's DXIL part: the bitcode as a stretch of the container, the stage that PSV0 shows, and how the stages compare.
#[repr(C)]
#[derive(Clone, Copy, Default)]
pub struct CReport {
    pub verdict: CVerdict,
    pub header: CHeader,
    pub start: usize,
    pub len: usize,
    pub psv0_stage: CField,
    pub stages: usize,
}

// A signature: its element count.
#[repr(C)]
#[derive(Clone, Copy)]
pub struct CSignature {
    pub verdict: CVerdict,
    pub count: usize,
}

// The report on a signature part: its element count, and its data as a stretch of the container.
#[repr(C)]
#[derive(Clone, Copy, Default)]
pub struct CSignatureReport {
    pub verdict: CVerdict,
    pub count: usize,
    pub start: usize,
    pub len: usize,
}

// A signature element, and its name: 1 where it has one, 0 where it has none, where it starts, its length and its code points.
#[repr(C)]
#[derive(Clone, Copy, Default)]
pub struct CSignatureElement {
    pub verdict: CVerdict,
    pub stream: u32,
    pub name_offset: u32,
    pub index: u32,
    pub system_value: u32,
    pub component_type: u32,
    pub register_number: u32,
    pub mask: u32,
    pub exclusive_mask: u32,
    pub precision: u32,
    pub named: u32,
    pub name_start: usize,
    pub name_len: usize,
    pub name_points: usize,
}

// The first element that differs: 1 and its number, 0 and 0 where there is none.
#[repr(C)]
#[derive(Clone, Copy, Default)]
pub struct CDifference {
    pub verdict: CVerdict,
    pub found: usize,
    pub number: usize,
}

// A root signature: its header.
#[repr(C)]
#[derive(Clone, Copy, Default)]
pub struct CRoot {
    pub verdict: CVerdict,
    pub version: u32,
    pub parameters: u32,
    pub samplers: u32,
    pub flags: u32,
}

// The report on a root signature: its header, and the part's data as a stretch of the container.
#[repr(C)]
#[derive(Clone, Copy, Default)]
pub struct CRootReport {
    pub verdict: CVerdict,
    pub version: u32,
    pub parameters: u32,
    pub samplers: u32,
    pub flags: u32,
    pub start: usize,
    pub len: usize,
}

// An item of a root signature: the parameter's type, unset for a static sampler, and the values of its case; the others have zeros. The three
// levels of detail cross as the file's bits, whatever they are: a caller's float has the same bytes.
#[repr(C)]
#[derive(Clone, Copy, Default)]
pub struct CItem {
    pub verdict: CVerdict,
    pub parameter_type: CField,
    pub visibility: u32,
    pub register_number: u32,
    pub space: u32,
    pub count: u32,
    pub ranges: u32,
    pub ranges_offset: u32,
    pub flags: CField,
    pub filter: u32,
    pub address_u: u32,
    pub address_v: u32,
    pub address_w: u32,
    pub lod_bias: u32,
    pub anisotropy: u32,
    pub comparison: u32,
    pub border: u32,
    pub least_lod: u32,
    pub greatest_lod: u32,
}

// A range of a table.
#[repr(C)]
#[derive(Clone, Copy, Default)]
pub struct CRange {
    pub verdict: CVerdict,
    pub range_type: u32,
    pub descriptors: u32,
    pub base_register: u32,
    pub space: u32,
    pub flags: CField,
    pub offset: usize,
}

// A settings file: its number of rows, and where the first begins.
#[repr(C)]
#[derive(Clone, Copy, Default)]
pub struct CSettings {
    pub verdict: CVerdict,
    pub rows: usize,
    pub first: usize,
}

// A row of a settings file.
#[repr(C)]
#[derive(Clone, Copy, Default)]
pub struct CSettingsRow {
    pub verdict: CVerdict,
    pub version: u32,
    pub key: u32,
    pub value: usize,
}

// A row of a settings file by itself, and where it ends.
#[repr(C)]
#[derive(Clone, Copy, Default)]
pub struct CSettingsRowAlone {
    pub verdict: CVerdict,
    pub version: u32,
    pub key: u32,
    pub value: usize,
    pub end: usize,
}

// The value of a key at a version.
#[repr(C)]
#[derive(Clone, Copy, Default)]
pub struct CSetting {
    pub verdict: CVerdict,
    pub setting: CField,
}

// Figures with one container more: 0 where it is counted, with what its opening gave; 1 where they are full, with zeros.
#[repr(C)]
#[derive(Clone, Copy)]
pub struct CAdded {
    pub answer: usize,
    pub verdict: CVerdict,
    pub figures: Figures,
}

// Two figures joined: 0; the first as it was, and 1 where there is no room, 2 where their editions differ.
#[repr(C)]
#[derive(Clone, Copy)]
pub struct CJoined {
    pub answer: usize,
    pub figures: Figures,
}

impl From<Refusal> for CVerdict {
    ghost from_gives = { λ r c. c ≡ c_refusal r };

    fn from(r: Refusal) -> CVerdict {
        CVerdict {
            number: usize::from(r.number),
            place: r.place,
        }
    }
}

// Zeros where there is no refusal.
impl From<Result<(), Refusal>> for CVerdict {
    ghost from_gives = { λ a c. c ≡ c_judged a };

    #[tactic(auto, unfolding(crate::specs::Boundary::c_judged))]
    fn from(a: Result<(), Refusal>) -> CVerdict {
        match a {
            Ok(()) => CVerdict::default(),
            Err(r) => r.into(),
        }
    }
}

impl From<Option<u32>> for CField {
    ghost from_gives = { λ f c. c ≡ c_field f };

    fn from(f: Option<u32>) -> CField {
        match f {
            Some(value) => CField { set: 1, value },
            None => UNSET,
        }
    }
}

impl From<Result<RuntimeInfo, Refusal>> for CInfo {
    ghost from_gives = { λ a c. c ≡ c_info a };

    // Compiled into the calls, which name it in place of `into`, as that of an element is.
    #[inline(always)]
    fn from(a: Result<RuntimeInfo, Refusal>) -> CInfo {
        match a {
            Ok(x) => CInfo {
                verdict: CVerdict::default(),
                minimum_wave_lanes: x.minimum_wave_lanes.into(),
                maximum_wave_lanes: x.maximum_wave_lanes.into(),
                stage: x.stage.into(),
                uses_view_id: x.uses_view_id.into(),
                max_vertex_count: x.max_vertex_count.into(),
                patch_vectors: x.patch_vectors.into(),
                mesh_topology: x.mesh_topology.into(),
                input_elements: x.input_elements.into(),
                output_elements: x.output_elements.into(),
                patch_elements: x.patch_elements.into(),
                input_vectors: x.input_vectors.into(),
                output_vectors_0: x.output_vectors_0.into(),
                output_vectors_1: x.output_vectors_1.into(),
                output_vectors_2: x.output_vectors_2.into(),
                output_vectors_3: x.output_vectors_3.into(),
                threads_x: x.threads_x.into(),
                threads_y: x.threads_y.into(),
                threads_z: x.threads_z.into(),
                entry_name_offset: x.entry_name_offset.into(),
            },
            Err(r) => CInfo {
                verdict: r.into(),
                ..CInfo::default()
            },
        }
    }
}

impl From<Result<ResourceRecord, Refusal>> for CResource {
    ghost from_gives = { λ a c. c ≡ c_resource a };

    fn from(a: Result<ResourceRecord, Refusal>) -> CResource {
        match a {
            Ok(x) => CResource {
                verdict: CVerdict::default(),
                binding_type: x.binding_type.into(),
                space: x.space.into(),
                lower_bound: x.lower_bound.into(),
                upper_bound: x.upper_bound.into(),
                kind: x.kind.into(),
                flags: x.flags.into(),
            },
            Err(r) => CResource {
                verdict: r.into(),
                ..CResource::default()
            },
        }
    }
}

impl From<Result<ElementRecord, Refusal>> for CElement {
    ghost from_gives = { λ a c. c ≡ c_element a };

    // Compiled into the calls, which name it in place of `into`: that is a function of its own, and a record that is handed on in memory is read in
    // other cuts than it is stored in, which took as long again.
    #[inline(always)]
    fn from(a: Result<ElementRecord, Refusal>) -> CElement {
        match a {
            Ok(x) => CElement {
                verdict: CVerdict::default(),
                name_offset: x.name_offset.into(),
                index_reference: x.index_reference.into(),
                rows: x.rows.into(),
                start_row: x.start_row.into(),
                columns: x.columns.into(),
                start_column: x.start_column.into(),
                allocated: x.allocated.into(),
                semantic_kind: x.semantic_kind.into(),
                component_type: x.component_type.into(),
                interpolation: x.interpolation.into(),
                dynamic_mask: x.dynamic_mask.into(),
                stream: x.stream.into(),
                reserved: x.reserved.into(),
            },
            Err(r) => CElement {
                verdict: r.into(),
                ..CElement::default()
            },
        }
    }
}

impl From<ListLengths> for CLengths {
    ghost from_gives = { λ x c. c ≡ c_lengths (Ok x) };

    fn from(x: ListLengths) -> CLengths {
        CLengths {
            verdict: CVerdict::default(),
            resources: x.resources.into(),
            strings: x.strings.into(),
            indices: x.indices.into(),
            elements: x.elements.into(),
        }
    }
}

impl From<Result<ListLengths, Refusal>> for CLengths {
    ghost from_gives = { λ a c. c ≡ c_lengths a };

    fn from(a: Result<ListLengths, Refusal>) -> CLengths {
        match a {
            Ok(x) => x.into(),
            Err(r) => CLengths {
                verdict: r.into(),
                ..CLengths::default()
            },
        }
    }
}

// The pairs of names that were compared, for who asked.
fn c_pairs(counted: bool, pairs: u32) -> CField
    ensures { result ≡ c_field (pairs_field counted pairs) }
{
    if counted { Some(pairs).into() } else { UNSET }
}

impl From<Table> for CTable {
    ghost from_gives = { λ t c. c ≡ c_table t };

    fn from(t: Table) -> CTable {
        // Stays: the five variables; the check refuses a field that is an array in a literal.
        let names = t.names;
        let offsets = t.offsets;
        let sizes = t.sizes;
        let occurrences = t.occurrences;
        let gaps = t.gaps;
        CTable {
            verdict: t.verdict.into(),
            count: t.count,
            pairs: c_pairs(t.counted, t.pairs),
            names,
            offsets,
            sizes,
            occurrences,
            gaps,
        }
    }
}

impl From<Result<Part, Refusal>> for CPart {
    ghost from_gives = { λ a c. c ≡ c_part a };

    fn from(a: Result<Part, Refusal>) -> CPart {
        match a {
            Ok(p) => CPart {
                verdict: CVerdict::default(),
                number: p.number,
                offset: p.offset,
                size: p.size,
            },
            Err(r) => CPart {
                verdict: r.into(),
                ..CPart::default()
            },
        }
    }
}

impl From<Result<ContainerOpening, Refusal>> for COpening {
    ghost from_gives = { λ a c. c ≡ c_opening a };

    fn from(a: Result<ContainerOpening, Refusal>) -> COpening {
        match a {
            Ok(o) => COpening {
                verdict: CVerdict::default(),
                parts: o.parts,
                file_edition: o.file_edition,
                edition_read: o.edition_read,
            },
            Err(r) => COpening {
                verdict: r.into(),
                ..COpening::default()
            },
        }
    }
}

// PSV0 data alone have no parts.
impl From<Result<Opening, Refusal>> for COpening {
    ghost from_gives = { λ a c. c ≡ c_psv_opening a };

    fn from(a: Result<Opening, Refusal>) -> COpening {
        match a {
            Ok(o) => COpening {
                verdict: CVerdict::default(),
                parts: 0,
                file_edition: o.file_edition,
                edition_read: o.edition_read,
            },
            Err(r) => COpening {
                verdict: r.into(),
                ..COpening::default()
            },
        }
    }
}

impl From<Refusal> for COpened {
    ghost from_gives = { λ r c. c ≡ not_opened r };

    fn from(r: Refusal) -> COpened {
        COpened {
            verdict: r.into(),
            parts: 0,
            file_edition: 0,
            edition_read: 0,
            places: places::none(),
        }
    }
}

impl From<Result<Span, Refusal>> for CSpan {
    ghost from_gives = { λ a c. c ≡ c_span a };

    fn from(a: Result<Span, Refusal>) -> CSpan {
        match a {
            Ok(s) => CSpan {
                verdict: CVerdict::default(),
                start: s.start,
                len: s.len,
                is_string: usize::from(s.points.is_some()),
                points: s.points.unwrap_or(0),
            },
            Err(r) => CSpan {
                verdict: r.into(),
                ..CSpan::default()
            },
        }
    }
}

impl From<Result<usize, Refusal>> for CWritten {
    ghost from_gives = { λ a c. c ≡ c_written a };

    fn from(a: Result<usize, Refusal>) -> CWritten {
        match a {
            Ok(len) => CWritten {
                verdict: CVerdict::default(),
                len,
            },
            Err(r) => CWritten {
                verdict: r.into(),
                len: 0,
            },
        }
    }
}

impl From<ProgramHeader> for CHeader {
    ghost from_gives = { λ h c. c ≡ c_header h };

    fn from(h: ProgramHeader) -> CHeader {
        CHeader {
            version_major: h.version_major,
            version_minor: h.version_minor,
            stage: h.stage,
            words: h.words,
            bitcode_major: h.bitcode_major,
            bitcode_minor: h.bitcode_minor,
            bitcode_offset: h.bitcode_offset,
            bitcode_size: h.bitcode_size,
        }
    }
}

impl From<Result<Program, Refusal>> for CProgram {
    ghost from_gives = { λ a c. c ≡ c_program a };

    fn from(a: Result<Program, Refusal>) -> CProgram {
        match a {
            Ok(p) => CProgram {
                verdict: CVerdict::default(),
                header: p.header.into(),
                start: p.start,
                len: p.len,
            },
            Err(r) => CProgram {
                verdict: r.into(),
                ..CProgram::default()
            },
        }
    }
}

// How the stages compare, as a number: 0 unset, 1 equal, 2 different.
fn stages_number(s: Stages) -> usize
    ensures { result ≡ stages_number s }
{
    match s {
        Stages::Unset => 0,
        Stages::Equal => 1,
        Stages::Different => 2,
    }
}

impl From<Result<ProgramReport, Refusal>> for CReport {
    ghost from_gives = { λ a c. c ≡ c_report a };

    fn from(a: Result<ProgramReport, Refusal>) -> CReport {
        match a {
            Ok(p) => CReport {
                verdict: CVerdict::default(),
                header: p.header.into(),
                start: p.start,
                len: p.len,
                psv0_stage: p.psv0_stage.into(),
                stages: stages_number(p.stages),
            },
            Err(r) => CReport {
                verdict: r.into(),
                ..CReport::default()
            },
        }
    }
}

impl From<Result<usize, Refusal>> for CSignature {
    ghost from_gives = { λ a c. c ≡ c_signature a };

    fn from(a: Result<usize, Refusal>) -> CSignature {
        match a {
            Ok(count) => CSignature {
                verdict: CVerdict::default(),
                count,
            },
            Err(r) => CSignature {
                verdict: r.into(),
                count: 0,
            },
        }
    }
}

impl From<Result<SignatureReport, Refusal>> for CSignatureReport {
    ghost from_gives = { λ a c. c ≡ c_signature_report a };

    fn from(a: Result<SignatureReport, Refusal>) -> CSignatureReport {
        match a {
            Ok(s) => CSignatureReport {
                verdict: CVerdict::default(),
                count: s.count,
                start: s.start,
                len: s.len,
            },
            Err(r) => CSignatureReport {
                verdict: r.into(),
                ..CSignatureReport::default()
            },
        }
    }
}

impl From<Result<SignatureAnswer, Refusal>> for CSignatureElement {
    ghost from_gives = { λ a c. c ≡ c_signature_element a };

    fn from(a: Result<SignatureAnswer, Refusal>) -> CSignatureElement {
        match a {
            Ok(SignatureAnswer { element: e, name }) => {
                let n = name.unwrap_or_default();
                CSignatureElement {
                    verdict: CVerdict::default(),
                    stream: e.stream,
                    name_offset: e.name_offset,
                    index: e.index,
                    system_value: e.system_value,
                    component_type: e.component_type,
                    register_number: e.register_number,
                    mask: e.mask,
                    exclusive_mask: e.exclusive_mask,
                    precision: e.precision,
                    named: u32::from(name.is_some()),
                    name_start: n.start,
                    name_len: n.len,
                    name_points: n.points,
                }
            }
            Err(r) => CSignatureElement {
                verdict: r.into(),
                ..CSignatureElement::default()
            },
        }
    }
}

impl From<Result<Option<usize>, Refusal>> for CDifference {
    ghost from_gives = { λ a c. c ≡ c_difference a };

    fn from(a: Result<Option<usize>, Refusal>) -> CDifference {
        match a {
            Ok(Some(number)) => CDifference {
                verdict: CVerdict::default(),
                found: 1,
                number,
            },
            Ok(None) => CDifference::default(),
            Err(r) => CDifference {
                verdict: r.into(),
                ..CDifference::default()
            },
        }
    }
}

impl From<Result<RootHeader, Refusal>> for CRoot {
    ghost from_gives = { λ a c. c ≡ c_root a };

    fn from(a: Result<RootHeader, Refusal>) -> CRoot {
        match a {
            Ok(h) => CRoot {
                verdict: CVerdict::default(),
                version: h.version,
                parameters: h.parameters,
                samplers: h.samplers,
                flags: h.flags,
            },
            Err(r) => CRoot {
                verdict: r.into(),
                ..CRoot::default()
            },
        }
    }
}

impl From<Result<RootReport, Refusal>> for CRootReport {
    ghost from_gives = { λ a c. c ≡ c_root_report a };

    fn from(a: Result<RootReport, Refusal>) -> CRootReport {
        match a {
            Ok(r) => CRootReport {
                verdict: CVerdict::default(),
                version: r.header.version,
                parameters: r.header.parameters,
                samplers: r.header.samplers,
                flags: r.header.flags,
                start: r.start,
                len: r.len,
            },
            Err(r) => CRootReport {
                verdict: r.into(),
                ..CRootReport::default()
            },
        }
    }
}

impl From<Item> for CItem {
    ghost from_gives = { λ x c. c ≡ item_fields x };

    fn from(item: Item) -> CItem {
        match item {
            Item::Table {
                visibility,
                ranges,
                offset,
            } => CItem {
                parameter_type: Some(0).into(),
                visibility,
                ranges,
                ranges_offset: offset,
                ..CItem::default()
            },
            Item::Constants {
                visibility,
                register_number,
                space,
                count,
            } => CItem {
                parameter_type: Some(1).into(),
                visibility,
                register_number,
                space,
                count,
                ..CItem::default()
            },
            Item::Descriptor {
                parameter_type,
                visibility,
                register_number,
                space,
                flags,
            } => CItem {
                parameter_type: Some(parameter_type).into(),
                visibility,
                register_number,
                space,
                flags: flags.into(),
                ..CItem::default()
            },
            Item::Sampler {
                filter,
                address_u,
                address_v,
                address_w,
                lod_bias,
                anisotropy,
                comparison,
                border,
                least_lod,
                greatest_lod,
                register_number,
                space,
                visibility,
            } => CItem {
                visibility,
                register_number,
                space,
                filter,
                address_u,
                address_v,
                address_w,
                lod_bias: lod_bias.bits,
                anisotropy,
                comparison,
                border,
                least_lod: least_lod.bits,
                greatest_lod: greatest_lod.bits,
                ..CItem::default()
            },
        }
    }
}

impl From<Result<Item, Refusal>> for CItem {
    ghost from_gives = { λ a c. c ≡ c_item a };

    fn from(a: Result<Item, Refusal>) -> CItem {
        match a {
            Ok(item) => item.into(),
            Err(r) => CItem {
                verdict: r.into(),
                ..CItem::default()
            },
        }
    }
}

impl From<Result<DescriptorRange, Refusal>> for CRange {
    ghost from_gives = { λ a c. c ≡ c_range a };

    fn from(a: Result<DescriptorRange, Refusal>) -> CRange {
        match a {
            Ok(x) => CRange {
                verdict: CVerdict::default(),
                range_type: x.range_type,
                descriptors: x.descriptors,
                base_register: x.base_register,
                space: x.space,
                flags: x.flags.into(),
                offset: x.offset as usize,
            },
            Err(r) => CRange {
                verdict: r.into(),
                ..CRange::default()
            },
        }
    }
}

// A signature part by its number: 0 ISG1, 1 OSG1, 2 PSG1.
fn part_numbered(part: u32) -> Option<SignaturePart>
    ensures { result ≡ choose (ltb part 3) (Some (part_numbered part)) None }
{
    match part {
        0 => Some(SignaturePart::Input),
        1 => Some(SignaturePart::Output),
        2 => Some(SignaturePart::Patch),
        _ => None,
    }
}

// What a number above 2, which names no signature part, is answered with: what opening gives, then 26.
fn no_part(b: &[u8], edition: usize) -> Refusal
    ensures { result ≡ no_part (container_judged edition b.now) }
{
    match container::open(b, edition) {
        Err(r) => r,
        Ok(_) => Refusal {
            number: 26,
            place: 0,
        },
    }
}

// A view by its kind and number: 0 the stage union, 1 an element's string, 2 an element's index array, 3 the entry name, 4 a mask. Any
// other kind is a mask that isn't there.
fn view_of(kind: u32, number: usize) -> View
    ensures { result ≡ view_of kind number }
{
    match kind {
        0 => View::StageUnion,
        1 => View::ElementString(number),
        2 => View::ElementArray(number),
        3 => View::EntryName,
        4 => View::Mask(number),
        _ => View::Mask(11),
    }
}

// A section by its number: 0 the runtime record, 1 resources, 2 strings, 3 indices, 4 elements, 5 masks.
fn section_of(section: u32) -> Option<Section>
    ensures { result ≡ choose (ltb section 6) (Some (section_numbered section)) None }
{
    match section {
        0 => Some(Section::RuntimeRecord),
        1 => Some(Section::ResourceRecords),
        2 => Some(Section::StringTable),
        3 => Some(Section::IndexTable),
        4 => Some(Section::ElementRecords),
        5 => Some(Section::Masks),
        _ => None,
    }
}

impl From<Result<Settings, Refusal>> for CSettings {
    ghost from_gives = { λ a c. c ≡ c_settings a };

    fn from(a: Result<Settings, Refusal>) -> CSettings {
        match a {
            Ok(s) => CSettings {
                verdict: CVerdict::default(),
                rows: s.rows,
                first: s.first,
            },
            Err(r) => CSettings {
                verdict: r.into(),
                ..CSettings::default()
            },
        }
    }
}

impl From<Result<Row, Refusal>> for CSettingsRow {
    ghost from_gives = { λ a c. c ≡ c_settings_row a };

    fn from(a: Result<Row, Refusal>) -> CSettingsRow {
        match a {
            Ok(row) => CSettingsRow {
                verdict: CVerdict::default(),
                version: row.version,
                key: row.key,
                value: row.value as usize,
            },
            Err(r) => CSettingsRow {
                verdict: r.into(),
                ..CSettingsRow::default()
            },
        }
    }
}

impl From<Result<RowAlone, Refusal>> for CSettingsRowAlone {
    ghost from_gives = { λ a c. c ≡ c_settings_row_alone a };

    fn from(a: Result<RowAlone, Refusal>) -> CSettingsRowAlone {
        match a {
            Ok(alone) => CSettingsRowAlone {
                verdict: CVerdict::default(),
                version: alone.row.version,
                key: alone.row.key,
                value: alone.row.value as usize,
                end: alone.end,
            },
            Err(r) => CSettingsRowAlone {
                verdict: r.into(),
                ..CSettingsRowAlone::default()
            },
        }
    }
}

impl From<Result<Option<u32>, Refusal>> for CSetting {
    ghost from_gives = { λ a c. c ≡ c_setting a };

    fn from(a: Result<Option<u32>, Refusal>) -> CSetting {
        match a {
            Ok(setting) => CSetting {
                verdict: CVerdict::default(),
                setting: setting.into(),
            },
            Err(r) => CSetting {
                verdict: r.into(),
                ..CSetting::default()
            },
        }
    }
}

// What adding to the figures f answers.
#[tactic(auto, unfolding(crate::specs::Boundary::c_added))]
fn c_added(f: Figures, a: Result<Addition, Full>) -> CAdded
    ensures { result ≡ c_added f a }
{
    match a {
        Ok(x) => CAdded {
            answer: 0,
            verdict: x.opening.into(),
            figures: x.figures,
        },
        Err(Full) => CAdded {
            answer: 1,
            verdict: CVerdict::default(),
            figures: f,
        },
    }
}

// What joining others to the figures f answers.
#[tactic(auto, unfolding(crate::specs::Boundary::c_joined))]
fn c_joined(f: Figures, a: Result<Figures, JoinError>) -> CJoined
    ensures { result ≡ c_joined f a }
{
    match a {
        Ok(figures) => CJoined { answer: 0, figures },
        Err(JoinError::Full) => CJoined {
            answer: 1,
            figures: f,
        },
        Err(JoinError::OtherEdition) => CJoined {
            answer: 2,
            figures: f,
        },
    }
}

// One function for both calls below: compiled once, the table is copied once less than where each reads it.
fn table_asked(b: &[u8], counting: bool) -> CTable
    ensures { result ≡ c_table (table_asked counting b.now) }
{
    part_table::read_with(b, counting).into()
}

// Stays: from here on names, parameters and numbers for kinds are those of C's header (a).
// The part table, 1 to 9.
pub fn qollqamir_table(b: &[u8]) -> CTable
    ensures { result ≡ c_table (table_of b.now) }
{
    table_asked(b, false)
}

// The part table, 1 to 9, and how many pairs of names were compared.
pub fn qollqamir_table_counted(b: &[u8]) -> CTable
    ensures { result ≡ c_table (counted_of b.now) }
{
    table_asked(b, true)
}

// The first part with a name, from the table alone: 1 to 9, then 26.
pub fn qollqamir_table_part(b: &[u8], name: &[u8; 4]) -> CPart
    ensures { result ≡ c_part (part_of b.now (u32_at name.now 0)) }
{
    part_table::find_part(b, name).into()
}

// The part with a name and an occurrence, from the table alone: 1 to 9, then 26.
pub fn qollqamir_table_part_occurrence(b: &[u8], name: &[u8; 4], occurrence: usize) -> CPart
    ensures { result ≡ c_part (occurrence_of b.now (u32_at name.now 0) occurrence) }
{
    part_table::find_part_occurrence(b, name, occurrence).into()
}

// Whether a name is one of the 24 that are known.
pub fn qollqamir_known(name: &[u8; 4]) -> bool
    ensures { result ≡ is_known (u32_at name.now 0) }
{
    part_table::known(name)
}

// Opens a container at an edition.
pub fn qollqamir_open(b: &[u8], edition: usize) -> COpening
    ensures { result ≡ c_opening (container_opening_of edition b.now) }
{
    container::open(b, edition).into()
}

// Opens a container at the edition that is read where none is named.
pub fn qollqamir_open_default(b: &[u8]) -> COpening
    ensures { result ≡ c_opening (container_opening_of default_edition b.now) }
{
    container::open_default(b).into()
}

// The first part with a name, of a container that opens at an edition.
pub fn qollqamir_part(b: &[u8], edition: usize, name: &[u8; 4]) -> CPart
    ensures { result ≡ c_part (container_part edition b.now (u32_at name.now 0)) }
{
    container::part(b, edition, name).into()
}

// The part with a name and an occurrence, of a container that opens at an edition.
pub fn qollqamir_part_occurrence(
    b: &[u8],
    edition: usize,
    name: &[u8; 4],
    occurrence: usize,
) -> CPart
    ensures { result ≡ c_part (container_occurrence edition b.now (u32_at name.now 0) occurrence) }
{
    container::part_occurrence(b, edition, name, occurrence).into()
}

// The fields of the runtime record.
pub fn qollqamir_runtime_info(b: &[u8], edition: usize) -> CInfo
    ensures { result ≡ c_info (info_answer_of (container_judged edition b.now) (container_answered edition b.now)) }
{
    // A refusal leaves at once, and the answer has a name of its own, here and of PSV0 data alone: so the refusal is written in place and not copied.
    let o = match container::open_places(b, edition) {
        Ok(o) => o,
        Err(r) => return CInfo::from(Err(r)),
    };
    let shown = qollqamir_places_runtime_info(b, o.places);
    shown
}

// Resource record i.
pub fn qollqamir_resource(b: &[u8], edition: usize, i: usize) -> CResource
    ensures { result ≡ c_resource (resource_answer_of (container_judged edition b.now) (container_answered edition b.now) i) }
{
    container::resource(b, edition, i).into()
}

// Element record i, over all lists.
pub fn qollqamir_element(b: &[u8], edition: usize, i: usize) -> CElement
    ensures { result ≡ c_element (element_answer_of (container_judged edition b.now) (container_answered edition b.now) i) }
{
    CElement::from(container::element(b, edition, i))
}

// The lists' lengths.
pub fn qollqamir_lengths(b: &[u8], edition: usize) -> CLengths
    ensures { result ≡ c_lengths (lengths_answer_of (container_judged edition b.now) (container_answered edition b.now)) }
{
    container::lengths(b, edition).into()
}

// A view by its kind and number.
pub fn qollqamir_view(b: &[u8], edition: usize, kind: u32, number: usize) -> CSpan
    ensures { CShows b.now (queried (container_judged edition b.now) (container_answered edition b.now (question_of (view_of kind number)))) (bytes_of (container_answered edition b.now (question_of (view_of kind number)))) (points_of (view_of kind number) (container_answered edition b.now)) result }
{
    container::view_span(b, edition, view_of(kind, number)).into()
}

// The bytes of a section for writing again: 0 the runtime record, 1 resources, 2 strings, 3 indices, 4 elements, 5 masks; any other
// is one that isn't there.
pub fn qollqamir_section(b: &[u8], edition: usize, section: u32) -> CSpan
    ensures { CShows b.now (section_verdict section (container_judged edition b.now) (container_answered edition b.now (question_of (view_of 5 0)))) (section_shown section (container_judged edition b.now) (edition_read_of edition (psv_of b.now)) (psv_of b.now) (container_answered edition b.now (question_of (view_of 5 0)))) None result }
{
    match section_of(section) {
        Some(s) => container::section_span(b, edition, s).into(),
        None => container::view_span(b, edition, View::Mask(11)).into(),
    }
}

// Opens a container at an edition, with the places of its PSV0 sections.
pub fn qollqamir_open_places(b: &[u8], edition: usize) -> COpened
    ensures { result ≡ c_opened (container_places_of edition b.now) }
{
    match container::open_places(b, edition) {
        // A container lists at most 96 parts, and an edition is at most 3.
        Ok(o) => COpened {
            verdict: CVerdict::default(),
            parts: o.parts as u32,
            file_edition: o.file_edition as u32,
            edition_read: o.places.edition,
            places: o.places,
        },
        Err(r) => r.into(),
    }
}

// Opens PSV0 data alone, with the places of its sections; it has no parts.
pub fn qollqamir_psv0_open_places(d: &[u8], edition: usize) -> COpened
    ensures { result ≡ c_psv_opened (opened_places edition d.now) }
{
    match psv0::open_places(d, edition) {
        Ok(o) => COpened {
            verdict: CVerdict::default(),
            parts: 0,
            file_edition: o.file_edition as u32,
            edition_read: o.places.edition,
            places: o.places,
        },
        Err(r) => r.into(),
    }
}

// The fields of the runtime record, by places. The two calls that open the bytes end here, so that they are put into C's struct in one place, and not
// copied from there.
pub fn qollqamir_places_runtime_info(b: &[u8], p: SectionPlaces) -> CInfo
    ensures { result ≡ c_info (info_by p b.now) }
{
    CInfo::from(places::runtime_info(b, p))
}

// Resource record i, by places.
pub fn qollqamir_places_resource(b: &[u8], p: SectionPlaces, i: usize) -> CResource
    ensures { result ≡ c_resource (resource_by p b.now i) }
{
    places::resource(b, p, i).into()
}

// Element record i, over all lists, by places.
pub fn qollqamir_places_element(b: &[u8], p: SectionPlaces, i: usize) -> CElement
    ensures { result ≡ c_element (element_by p b.now i) }
{
    CElement::from(places::element(b, p, i))
}

// The lists' lengths, by places.
pub fn qollqamir_places_lengths(b: &[u8], p: SectionPlaces) -> CLengths
    ensures { result ≡ c_lengths (Ok (lengths_by p b.now)) }
{
    places::lengths(b, p).into()
}

// A view by its kind and number, by places. A mask takes no time but for finding it, so it is asked for by itself: one choice and no call.
pub fn qollqamir_places_view(b: &[u8], p: SectionPlaces, kind: u32, number: usize) -> CSpan
    ensures { CShows b.now (answered_by p b.now (question_of (view_of kind number))).verdict (bytes_of (shown_by p b.now (question_of (view_of kind number)))) (points_of (view_of kind number) (shown_by p b.now)) result }
{
    if kind == 4 {
        return places::mask(b, p, number).into();
    }
    places::view_span(b, p, view_of(kind, number)).into()
}

// The bytes of a section for writing again, by places; a section above 5 is one that isn't there.
pub fn qollqamir_places_section(b: &[u8], p: SectionPlaces, section: u32) -> CSpan
    ensures { CShows b.now (placed_section section p b.now).verdict (bytes_of (placed_section section p b.now).value) None result }
{
    match section_of(section) {
        Some(s) => places::section_span(b, p, s).into(),
        None => wire::refused::<Span>(26, 0).into(),
    }
}

// Opens PSV0 data alone at an edition; it has no parts.
pub fn qollqamir_psv0_open(d: &[u8], edition: usize) -> COpening
    ensures { result ≡ c_psv_opening (opening_of (opened edition d.now) (file_edition_of (u32_at d.now 0)) (edition_read_of edition d.now)) }
{
    psv0::open(d, edition).into()
}

// The fields of the runtime record, of PSV0 data alone.
pub fn qollqamir_psv0_runtime_info(d: &[u8], edition: usize) -> CInfo
    ensures { result ≡ c_info (info_answer_of (opened edition d.now) (answered edition d.now)) }
{
    let o = match psv0::open_places(d, edition) {
        Ok(o) => o,
        Err(r) => return CInfo::from(Err(r)),
    };
    let shown = qollqamir_places_runtime_info(d, o.places);
    shown
}

// Resource record i, of PSV0 data alone.
pub fn qollqamir_psv0_resource(d: &[u8], edition: usize, i: usize) -> CResource
    ensures { result ≡ c_resource (resource_answer_of (opened edition d.now) (answered edition d.now) i) }
{
    psv0::resource(d, edition, i).into()
}

// Element record i, over all lists, of PSV0 data alone.
pub fn qollqamir_psv0_element(d: &[u8], edition: usize, i: usize) -> CElement
    ensures { result ≡ c_element (element_answer_of (opened edition d.now) (answered edition d.now) i) }
{
    CElement::from(psv0::element(d, edition, i))
}

// The lists' lengths, of PSV0 data alone.
pub fn qollqamir_psv0_lengths(d: &[u8], edition: usize) -> CLengths
    ensures { result ≡ c_lengths (lengths_answer_of (opened edition d.now) (answered edition d.now)) }
{
    psv0::lengths(d, edition).into()
}

// A view by its kind and number, of PSV0 data alone.
pub fn qollqamir_psv0_view(d: &[u8], edition: usize, kind: u32, number: usize) -> CSpan
    ensures { CShows d.now (queried (opened edition d.now) (answered edition d.now (question_of (view_of kind number)))) (bytes_of (answered edition d.now (question_of (view_of kind number)))) (points_of (view_of kind number) (answered edition d.now)) result }
{
    psv0::view_span(d, edition, view_of(kind, number)).into()
}

// The bytes of a section for writing again, of PSV0 data alone: 0 the runtime record, 1 resources, 2 strings, 3 indices, 4 elements, 5 masks; any other
// is one that isn't there.
pub fn qollqamir_psv0_section(d: &[u8], edition: usize, section: u32) -> CSpan
    ensures { CShows d.now (section_verdict section (opened edition d.now) (answered edition d.now (question_of (view_of 5 0)))) (section_shown section (opened edition d.now) (edition_read_of edition d.now) d.now (answered edition d.now (question_of (view_of 5 0)))) None result }
{
    match section_of(section) {
        Some(s) => psv0::section_span(d, edition, s).into(),
        None => psv0::view_span(d, edition, View::Mask(11)).into(),
    }
}

// The data of a DXIL part alone: 40 to 42.
pub fn qollqamir_dxil_program(d: &[u8]) -> CProgram
    ensures { result ≡ c_program (program_of d.now) }
{
    dxil::read(d).into()
}

// The report on a container's DXIL part at an edition: what opening gives, then 40 to 42.
pub fn qollqamir_program(b: &[u8], edition: usize) -> CReport
    ensures { result ≡ c_report (program_report_of edition b.now) }
{
    dxil_report::report(b, edition).into()
}

// The data of a part ISG1, OSG1 or PSG1 alone: 43 to 45 and 52.
pub fn qollqamir_sg1_read(d: &[u8]) -> CSignature
    ensures { result ≡ c_signature (signature_of d.now) }
{
    signature::read(d).into()
}

// Element i of such data: 43 to 45 and 52, then 26.
pub fn qollqamir_sg1_element(d: &[u8], i: usize) -> CSignatureElement
    ensures { result ≡ c_signature_element (element_of d.now i) }
{
    signature::element(d, i).into()
}

// Element i of such data by itself: 43, 26, 44 of its own bytes, 45 and 52 of its own name.
pub fn qollqamir_sg1_element_alone(d: &[u8], i: usize) -> CSignatureElement
    ensures { result ≡ c_signature_element (alone_of d.now i) }
{
    signature::element_alone(d, i).into()
}

// The name of element i of such data: 43 to 45 and 52, then 26.
pub fn qollqamir_sg1_name(d: &[u8], i: usize) -> CSpan
    ensures { result ≡ c_span (name_view (element_of d.now i)) }
{
    signature::name(d, i).into()
}

// The report on a container's signature part at an edition, 0 ISG1, 1 OSG1, 2 PSG1: what opening gives, 26, then 43 to 45 and 52.
pub fn qollqamir_signature(b: &[u8], edition: usize, part: u32) -> CSignatureReport
    ensures { result ≡ report_numbered part edition b.now }
{
    match part_numbered(part) {
        Some(s) => signature_report::report(b, edition, s).into(),
        None => Err(no_part(b, edition)).into(),
    }
}

// Element i of the part, its name as a stretch of the container: those of the report, then 26.
pub fn qollqamir_signature_element(
    b: &[u8],
    edition: usize,
    part: u32,
    i: usize,
) -> CSignatureElement
    ensures { result ≡ c_signature_element (element_numbered part edition b.now i) }
{
    match part_numbered(part) {
        Some(s) => signature_report::element(b, edition, s, i).into(),
        None => Err(no_part(b, edition)).into(),
    }
}

// The name of element i of the part as a stretch of the container: those of the report, then 26.
pub fn qollqamir_signature_name(b: &[u8], edition: usize, part: u32, i: usize) -> CSpan
    ensures { result ≡ c_span (name_view (element_numbered part edition b.now i)) }
{
    match part_numbered(part) {
        Some(s) => signature_report::name(b, edition, s, i).into(),
        None => Err(no_part(b, edition)).into(),
    }
}

// The first named element of the part whose name differs from that of PSV0's element of the same list and number, or is missing there: after the
// refusals of the report.
pub fn qollqamir_signature_difference(b: &[u8], edition: usize, part: u32) -> CDifference
    ensures { result ≡ difference_numbered part edition b.now }
{
    match part_numbered(part) {
        Some(s) => signature_report::first_difference(b, edition, s).into(),
        None => Err(no_part(b, edition)).into(),
    }
}

// A settings file: 53 to 60.
pub fn qollqamir_settings_read(d: &[u8]) -> CSettings
    ensures { result ≡ c_settings (settings_of d.now) }
{
    settings_reader::read(d).into()
}

// Row i of a settings file: 53 to 60, then 26.
pub fn qollqamir_settings_row(d: &[u8], i: usize) -> CSettingsRow
    ensures { result ≡ c_settings_row (row_answer_of d.now i) }
{
    settings_reader::row(d, i).into()
}

// The row at a byte of a settings file by itself, after a row of version last: 53 to 55 and 57 to 59 of its own.
pub fn qollqamir_settings_row_alone(d: &[u8], at: usize, last: u32) -> CSettingsRowAlone
    ensures { result ≡ c_settings_row_alone (row_alone_of d.now at last) }
{
    settings_reader::row_alone(d, at, last).into()
}

// The value of a key at a version: 53 to 60; unset where no row tells it.
pub fn qollqamir_settings_value(d: &[u8], key: u32, version: u32) -> CSetting
    ensures { result ≡ c_setting (setting_answer_of d.now key version) }
{
    settings_reader::value(d, key, version).into()
}

// The data of a part RTS0 alone: 46 to 51.
pub fn qollqamir_rts0_read(d: &[u8]) -> CRoot
    ensures { result ≡ c_root (root_of d.now) }
{
    root_signature::read(d).into()
}

// Item i of such data: 46 to 51, then 26.
pub fn qollqamir_rts0_item(d: &[u8], i: usize) -> CItem
    ensures { result ≡ c_item (item_of d.now i) }
{
    root_signature::item(d, i).into()
}

// Item i of such data by itself: 46, 47, 26, then 48 to 51 of its own.
pub fn qollqamir_rts0_item_alone(d: &[u8], i: usize) -> CItem
    ensures { result ≡ c_item (item_alone_of d.now i) }
{
    root_signature::item_alone(d, i).into()
}

// Range j of item i of such data: 46 to 51, then 26.
pub fn qollqamir_rts0_range(d: &[u8], i: usize, j: usize) -> CRange
    ensures { result ≡ c_range (range_answer_of d.now i j) }
{
    root_signature::range(d, i, j).into()
}

// Range j of item i of such data by itself: what the item by itself gives, then 26.
pub fn qollqamir_rts0_range_alone(d: &[u8], i: usize, j: usize) -> CRange
    ensures { result ≡ c_range (range_alone_of d.now i j) }
{
    root_signature::range_alone(d, i, j).into()
}

// The report on a container's root signature at an edition: what opening gives, 26, then 46 to 51.
pub fn qollqamir_root_signature(b: &[u8], edition: usize) -> CRootReport
    ensures { result ≡ c_root_report (root_report_of edition b.now) }
{
    root_signature_report::report(b, edition).into()
}

// Item i of it: those of the report, then 26.
pub fn qollqamir_root_item(b: &[u8], edition: usize, i: usize) -> CItem
    ensures { result ≡ c_item (item_report_of edition b.now i) }
{
    root_signature_report::item(b, edition, i).into()
}

// Range j of item i of it: those of the report, then 26.
pub fn qollqamir_root_range(b: &[u8], edition: usize, i: usize, j: usize) -> CRange
    ensures { result ≡ c_range (range_report_of edition b.now i j) }
{
    root_signature_report::range(b, edition, i, j).into()
}

// Writes PSV0 data.
pub fn qollqamir_write_psv0(
    edition: usize,
    runtime: &[u8],
    resources: &[u8],
    strings: &[u8],
    indices: &[u8],
    elements: &[u8],
    masks: &[u8],
    out: &mut [u8],
) -> CWritten
    ensures value { result ≡ c_written (writing.answer edition (writing.given runtime.now resources.now strings.now indices.now elements.now masks.now) (length out.old)) }
    ensures out_after { out.new ≡ writing.output edition (writing.given runtime.now resources.now strings.now indices.now elements.now masks.now) out.old }
{
    psv0_writer::write(
        edition, runtime, resources, strings, indices, elements, masks, out,
    )
    .into()
}

// Assembles a container.
pub fn qollqamir_assemble(
    names: &[u8],
    sizes: &[u32],
    data: &[u8],
    digest: &[u8],
    out: &mut [u8],
) -> CWritten
    ensures value { result ≡ c_written (assembly.answer (assembly.given names.now sizes.now «data».now digest.now) (length out.old)) }
    ensures out_after { out.new ≡ assembly.output (assembly.given names.now sizes.now «data».now digest.now) out.old }
{
    assembler::assemble(names, sizes, data, digest, out).into()
}

// A container with other PSV0 data in the place of its own.
pub fn qollqamir_replace_psv0(b: &[u8], edition: usize, new: &[u8], out: &mut [u8]) -> CReplaced
    ensures value { result ≡ c_replaced (replacement_of edition b.now new.now (length out.old)) }
    ensures out_after { out.new ≡ output_of edition b.now new.now out.old }
{
    match replacing::replace_psv0(b, edition, new, out) {
        // A container is at most 16,777,216 bytes long.
        Ok(r) => CReplaced {
            verdict: CVerdict::default(),
            len: r.len as u32,
            places: r.places,
        },
        Err(r) => CReplaced {
            verdict: r.into(),
            len: 0,
            places: places::none(),
        },
    }
}

// Writes a settings file from rows as numbers, three a row.
pub fn qollqamir_write_settings(rows: &[u32], out: &mut [u8]) -> CWritten
    ensures value { result ≡ c_written (settings_writing.answer rows.now (length out.old)) }
    ensures out_after { out.new ≡ settings_writing.output rows.now out.old }
{
    settings_writer::write(rows, out).into()
}

// Figures of no container, at an edition.
pub fn qollqamir_figures_start(edition: usize) -> Figures
    ensures { result ≡ started edition }
{
    figures_counter::start(edition)
}

// One container more, opened at the figures' edition.
pub fn qollqamir_figures_add(f: Figures, b: &[u8]) -> CAdded
    ensures { result ≡ c_added f (added f b.now) }
{
    c_added(f, figures_counter::add(f, b))
}

// Two figures joined.
pub fn qollqamir_figures_join(f: Figures, g: Figures) -> CJoined
    ensures { result ≡ c_joined f (joined f g) }
{
    c_joined(f, figures_counter::join(f, g))
}
