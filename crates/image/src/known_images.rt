//! Images whose bytes are known, with nothing to run.

ghost use Rattle.std.specs.Prelude.{◌≡◌, length};
ghost use Rattle.image.specs.Bytes.{First, Second, bytes_of};
ghost use Rattle.image.specs.Example.{empty_program, empty_program_bytes, empty_program_first_bytes, every_kind, every_kind_bytes, valve_program};
ghost use Rattle.image_format.specs.TreeBytes.{tree_bytes};

/// The bytes of a program whose one process does nothing: 98 in the first version, and 104 in the
/// second.
pub fn an_empty_program()
    ensures first { bytes_of First empty_program ≡ empty_program_first_bytes }
    ensures second { bytes_of Second empty_program ≡ empty_program_bytes }
    ensures first_length { length empty_program_first_bytes ≡ 98 }
    ensures second_length { length empty_program_bytes ≡ 104 }
{}

/// A program that puts one number to a device has 136 bytes in the first version, and 142 in the
/// second.
pub fn a_put()
    ensures first { length (bytes_of First valve_program) ≡ 136 }
    ensures second { length (bytes_of Second valve_program) ≡ 142 }
{}

/// A tree with a segment of each kind.
pub fn a_tree()
    ensures { tree_bytes every_kind ≡ every_kind_bytes }
{}
