//! Parts of one element: counted, filled, flipped and searched.
pub use bitvec_cells::{
    count_part, fill_part, filled, first_in_element, first_in_part, invert_part, last_in_element,
    last_in_part, sought,
};
