// The definitions of PSV0 data, with the types of the answers about them, and what is proved of them; the reader and the writer are crates of
// their own.
#![tactic(auto)]

// The fields of the runtime record but the stage union, which is a view.
#[derive(Clone, Copy)]
pub struct RuntimeInfo {
    pub minimum_wave_lanes: Option<u32>,
    pub maximum_wave_lanes: Option<u32>,
    pub stage: Option<u32>,
    pub uses_view_id: Option<u32>,
    pub max_vertex_count: Option<u32>,
    pub patch_vectors: Option<u32>,
    pub mesh_topology: Option<u32>,
    pub input_elements: Option<u32>,
    pub output_elements: Option<u32>,
    pub patch_elements: Option<u32>,
    pub input_vectors: Option<u32>,
    pub output_vectors_0: Option<u32>,
    pub output_vectors_1: Option<u32>,
    pub output_vectors_2: Option<u32>,
    pub output_vectors_3: Option<u32>,
    pub threads_x: Option<u32>,
    pub threads_y: Option<u32>,
    pub threads_z: Option<u32>,
    pub entry_name_offset: Option<u32>,
}

// A resource binding's record.
#[derive(Clone, Copy)]
pub struct ResourceRecord {
    pub binding_type: Option<u32>,
    pub space: Option<u32>,
    pub lower_bound: Option<u32>,
    pub upper_bound: Option<u32>,
    pub kind: Option<u32>,
    pub flags: Option<u32>,
}

// A signature element's record.
#[derive(Clone, Copy)]
pub struct ElementRecord {
    pub name_offset: Option<u32>,
    pub index_reference: Option<u32>,
    pub rows: Option<u32>,
    pub start_row: Option<u32>,
    pub columns: Option<u32>,
    pub start_column: Option<u32>,
    pub allocated: Option<u32>,
    pub semantic_kind: Option<u32>,
    pub component_type: Option<u32>,
    pub interpolation: Option<u32>,
    pub dynamic_mask: Option<u32>,
    pub stream: Option<u32>,
    pub reserved: Option<u32>,
}

// The lists' lengths: R, T, N and E.
#[derive(Clone, Copy)]
pub struct ListLengths {
    pub resources: Option<u32>,
    pub strings: Option<u32>,
    pub indices: Option<u32>,
    pub elements: Option<u32>,
}

// What an opening tells: the file's edition and the edition read.
#[derive(Clone, Copy)]
pub struct Opening {
    pub file_edition: usize,
    pub edition_read: usize,
}

// What is shown as bytes: the stage union, an element's string or index array, the entry name, a mask.
#[derive(Clone, Copy)]
pub enum View {
    StageUnion,
    ElementString(usize),
    ElementArray(usize),
    EntryName,
    Mask(usize),
}

// A section whose bytes are handed out for writing again.
#[derive(Clone, Copy)]
pub enum Section {
    RuntimeRecord,
    ResourceRecords,
    StringTable,
    IndexTable,
    ElementRecords,
    Masks,
}

// A stretch of the data: where it starts and its length, and the code points where it is a string, which stand between the two: so the
// compiler hands on each by itself, and need not wait until both can be read at once.
#[derive(Clone, Copy)]
pub struct Span {
    pub start: usize,
    pub points: Option<usize>,
    pub len: usize,
}
