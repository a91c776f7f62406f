// The definitions of the data of a part RTS0 (document 02, Ask 6): a root signature's header, its items and the ranges of its tables; the
// reader is a crate of its own.
#![tactic(auto)]

// The header's version, counts and flags.
#[derive(Clone, Copy)]
pub struct RootHeader {
    pub version: u32,
    pub parameters: u32,
    pub samplers: u32,
    pub flags: u32,
}

// A 32-bit float of the file: its four bytes as a number, and the float that they are.
#[derive(Clone, Copy)]
pub struct Single {
    pub bits: u32,
    pub value: f32,
}

// An item: a parameter that is a table, constants or a descriptor, or a static sampler.
#[derive(Clone, Copy)]
pub enum Item {
    Constants {
        visibility: u32,
        register_number: u32,
        space: u32,
        count: u32,
    },
    Descriptor {
        parameter_type: u32,
        visibility: u32,
        register_number: u32,
        space: u32,
        flags: Option<u32>,
    },
    Table {
        visibility: u32,
        ranges: u32,
        offset: u32,
    },
    Sampler {
        filter: u32,
        address_u: u32,
        address_v: u32,
        address_w: u32,
        lod_bias: Single,
        anisotropy: u32,
        comparison: u32,
        border: u32,
        least_lod: Single,
        greatest_lod: Single,
        register_number: u32,
        space: u32,
        visibility: u32,
    },
}

// A range of a table.
#[derive(Clone, Copy)]
pub struct DescriptorRange {
    pub range_type: u32,
    pub descriptors: u32,
    pub base_register: u32,
    pub space: u32,
    pub flags: Option<u32>,
    pub offset: u32,
}
