//! Law: every valid image can be run and stored.

ghost use Rattle.command_answers.specs.Runnable.{IsRunnable};

use image_loaded::Image;
use image_reader_law::images_read_can_be_written;
use vm_law::suitable_scripts::scripts_suit;
use vm_plan::runnable_images::valid_images_read_are_ready;

/// The machine can run a valid image over each script for its names, and its bytes can be written.
/// The call does nothing.
pub fn valid_images_can_be_run(image: &Image)
    ensures { IsRunnable image.now }
{
    image.is_valid();
    valid_images_read_are_ready();
    images_read_can_be_written();
    scripts_suit();
}
