// The definitions of the replacing of a container's PSV0 part (document 02, Ask 11), and what is proved of them; the code is a crate of its own.
#![tactic(auto)]

use places_layout::SectionPlaces;

// The length of the result, and the record of section places that an opening of the result hands back.
#[derive(Clone, Copy)]
pub struct Replacement {
    pub len: usize,
    pub places: SectionPlaces,
}
