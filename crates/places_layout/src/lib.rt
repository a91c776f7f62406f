// The definitions of the record of section places that an opening hands back, and of reading by such a record, with what is proved of them; the
// reading is a crate of its own.
#![tactic(auto)]

// What an opening keeps of PSV0 data: the edition read, of each section the place of its first byte after its counts and sizes, its count, its
// record size; of the masks the words of each; and the stage. Places count from the first byte that was opened, the container's or the data's.
// Plain data that a caller may keep. At edition read 0 the stage and sections 3 to 6 have zeros.
#[repr(C)]
#[derive(Clone, Copy, Default)]
pub struct SectionPlaces {
    pub edition: u32,
    pub runtime: u32,
    pub resources: u32,
    pub resource_count: u32,
    pub resource_size: u32,
    pub strings: u32,
    pub string_bytes: u32,
    pub indices: u32,
    pub index_count: u32,
    pub elements: u32,
    pub element_count: u32,
    pub element_size: u32,
    pub masks: u32,
    pub mask_words: [u32; 11],
    pub stage: u32,
}

// What an opening of PSV0 data with its places tells: the file's edition and the places.
#[derive(Clone, Copy)]
pub struct PlacesAnswer {
    pub file_edition: usize,
    pub places: SectionPlaces,
}
