//! Laws of image files: round trip, one spelling, faults, ranges, names, what is stored.
//!
//! `round_trip`: what is read is what is written, and a cut image is none. `faults_of_files`: the
//! fault that is told is the one that the bytes have, told without reading (`specs/Faults.antt`).
//! `ranges_of_numbers` and `validity_ranges`: what is read can be written, and its numbers are in
//! their ranges. `named_parts`: it has a name for each part.
//!
//! `faults_of_fields`: where a file is wrong, field by field: which bytes are told as I2 and I4 to
//! I8, by a table of the fields (`specs/Fields.antt`, `specs/FieldsLaw.antt`).
//!
//! `stored_images`: a valid image, its fields in their ranges, has no more bytes of version 2 than
//! an image may have, so these hold it; and those of an image that was read in either version hold
//! it again (`specs/Stored.antt`). Nothing here can run.
#![tactic(auto)]

mod faults_of_fields;
mod faults_of_files;
pub mod named_parts;
mod ranges_of_numbers;
mod round_trip;
pub mod stored_images;
mod validity_ranges;

pub use faults_of_fields::{
    ends_inside_are_i2, numbers_for_nothing_are_i7, out_of_range_is_i4, wrong_fields_are_told,
    wrong_handled_numbers_are_i8, wrong_kinds_are_i6, wrong_names_are_i5,
};
pub use faults_of_files::{
    each_file_has_one_fault, each_file_is_an_image_or_has_a_fault, faults_are_told_exactly,
    i1_stands_in_front, i2_stands_at_the_end, more_bytes_are_i3, no_image_has_a_fault,
    other_letters_are_i1, other_versions_are_i1, the_format_of_images_is_made,
    too_many_bytes_are_i9,
};
pub use ranges_of_numbers::images_read_can_be_written;
pub use round_trip::{
    cut_images_end_inside_a_field, images_read_are_written, images_written_are_read,
    trees_read_are_written,
};
pub use validity_ranges::images_read_are_in_their_ranges;
