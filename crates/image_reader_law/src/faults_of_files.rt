//! Laws: the faults of a file that is no image.
//!
//! `specs/Faults.antt` says which faults the bytes of a file have, and where, from how an image is
//! written and in which ranges its fields are; it does not speak of reading. `specs/ImageFaults.antt` ties
//! it to what `read_image` of `image_reader` tells: exactly these faults, one for each file
//! that holds no image; and it says in plain words where I1, I2, I3 and I9 stand. Nothing here can
//! run.
//!
//! The laws.

ghost use Rattle.image_reader_law.specs.ImageFaults.{EachFileHasOneFault, EachFileIsAnImageOrHasAFault, FaultsAreToldExactly, I1StandsInFront, I2StandsAtTheEnd, MoreBytesAreI3, NoImageHasAFault, OtherLettersAreI1, OtherVersionsAreI1, TheFormatOfImagesIsMade, TooManyBytesAreI9};

/// The format of images is put together of fields, so the faults are those of all its fields.
pub fn the_format_of_images_is_made()
    ensures { TheFormatOfImagesIsMade }
{}

/// The fault that reading a file tells is the one that its bytes have.
pub fn faults_are_told_exactly()
    ensures { FaultsAreToldExactly }
{}

/// A file has no more than one fault.
pub fn each_file_has_one_fault()
    ensures { EachFileHasOneFault }
{}

/// The bytes of an image whose fields are in their ranges have no fault.
pub fn no_image_has_a_fault()
    ensures { NoImageHasAFault }
{}

/// The bytes of a file are those of an image, or they have a fault.
pub fn each_file_is_an_image_or_has_a_fault()
    ensures { EachFileIsAnImageOrHasAFault }
{}

/// I9 is told exactly where there are more bytes than an image may have, behind so many.
pub fn too_many_bytes_are_i9()
    ensures { TooManyBytesAreI9 }
{}

/// I1 is told at the letters exactly where four bytes are there and are not those of an image.
pub fn other_letters_are_i1()
    ensures { OtherLettersAreI1 }
{}

/// I1 is told at the version exactly where it is there and is not known.
pub fn other_versions_are_i1()
    ensures { OtherVersionsAreI1 }
{}

/// I1 is told nowhere else.
pub fn i1_stands_in_front()
    ensures { I1StandsInFront }
{}

/// I2 is told at the end of the bytes.
pub fn i2_stands_at_the_end()
    ensures { I2StandsAtTheEnd }
{}

/// I3 is told exactly where an image ends and there are more bytes. The image may have an event of
/// no process, if it has no code.
pub fn more_bytes_are_i3()
    ensures { MoreBytesAreI3 }
{}
