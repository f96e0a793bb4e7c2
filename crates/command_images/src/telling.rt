//! Loading from texts.

ghost use Rattle.command_images.specs.Telling.{LoadsText, TellsImage};

use asm_law::text_and_image::{images_told_are_held, texts_read_are_of_images};
use assembler::{AssemblyFault, asm};
use faulty_part::PartFault;
use image::RawImage;
use image_loaded::{Image, ValidFault};
use out_of_memory::OutOfMemory;
use std::alloc::Global;

/// Why a text gave no valid image.
#[derive(Drop)]
pub enum ImageTextFault {
    /// It is that of no image: the number of its fault from 1 to 3, and the line, from 1 on; 3 is of
    /// a text that is too long, on line 0.
    Text { number: u8, line: u32 },
    /// It is that of these numbers: the first test that they fail, with the part of the image that
    /// it is of.
    Invalid { raw: RawImage, fault: PartFault },
    /// There was not enough memory.
    Memory(OutOfMemory),
}

impl From<AssemblyFault> for ImageTextFault {
    ghost use Rattle.std.specs.Prelude.{◌≡◌};
    ghost use Rattle.command_images.specs.Telling.{of_lines};

    ghost from_gives = { λ fault made. made ≡ of_lines fault };

    fn from(fault: AssemblyFault) -> ImageTextFault {
        match fault {
            AssemblyFault::Bad { number, line } => ImageTextFault::Text { number, line },
            AssemblyFault::Memory(error) => ImageTextFault::Memory(error),
        }
    }
}

impl From<ValidFault> for ImageTextFault {
    ghost use Rattle.std.specs.Prelude.{◌≡◌};
    ghost use Rattle.command_images.specs.Telling.{of_numbers};

    ghost from_gives = { λ fault made. made ≡ of_numbers fault };

    fn from(fault: ValidFault) -> ImageTextFault {
        match fault {
            ValidFault::Invalid { raw, fault } => ImageTextFault::Invalid { raw, fault },
            ValidFault::Memory(error) => ImageTextFault::Memory(error),
        }
    }
}

/// The image that the text tells.
fn tell(alloc: Global, text: &[u8]) -> Result<RawImage, AssemblyFault>
    ensures { TellsImage text.now result }
{
    texts_read_are_of_images();
    asm(alloc, text)
}

/// The valid image whose text this is.
///
/// # Errors
///
/// `Text` exactly where the text is that of no image, with its first faulty line; `Invalid` exactly
/// where it is that of one that is not valid, with the first test that fails in the order of the
/// tests 6, 1, 7, 2, 3, 4, 5. `Memory` where there is not enough memory.
pub fn load_text(alloc: Global, text: &[u8]) -> Result<Image, ImageTextFault>
    ensures { LoadsText text.now result }
{
    images_told_are_held();
    let raw = tell(alloc, text)?;
    Ok(Image::verify(alloc, raw)?)
}
