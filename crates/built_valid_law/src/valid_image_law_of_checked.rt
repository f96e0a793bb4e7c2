//! Laws: every image that is made of a checked program is valid.
//!
//! `specs/Checked.antt` has the laws: devices of one name go one way, no operand is out of range,
//! and with the other six parts of validity the image is valid. Nothing here can run.
//!
//! The laws.

ghost use Rattle.built_valid_law.specs.Checked.{CheckedDevicesGoOneWay, CheckedOperandsAreInRange, CheckedImagesAreValid};

use crate::operands_of_image::operands_are_in_range;
use built_image_law::premises_of_laws::{checked_images_are_made, checked_programs_are_ready};
use code_measures::declared_images_valid::made_images_are_valid;
use wellformed_law::names_are_found;

/// In a checked program devices of one name go one way.
pub fn checked_devices_go_one_way()
    ensures { CheckedDevicesGoOneWay }
{
    names_are_found();
}

/// The code of a checked program has no operand out of range.
pub fn checked_operands_are_in_range()
    ensures { CheckedOperandsAreInRange }
{
    checked_devices_go_one_way();
    checked_programs_are_ready();
    operands_are_in_range();
}

/// Every image that is made of a checked program is valid.
pub fn checked_images_are_valid()
    ensures { CheckedImagesAreValid }
{
    checked_operands_are_in_range();
    checked_images_are_made();
    made_images_are_valid();
}
