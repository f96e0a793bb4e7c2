//! Why bytes gave no image, and numbers no valid one.

use faulty_part::PartFault;
use image::RawImage;
use image_reader::ImageFault;
use out_of_memory::OutOfMemory;

/// Why numbers are no valid image.
#[derive(Drop)]
pub enum ValidFault {
    /// The first test that these numbers fail, with the part of the image that it is of.
    Invalid { raw: RawImage, fault: PartFault },
    /// There was not enough memory.
    Memory(OutOfMemory),
}

impl From<OutOfMemory> for ValidFault {
    ghost use Rattle.std.specs.Prelude.{◌≡◌};
    ghost use Rattle.out_of_memory.specs.Refused.{refused};
    ghost use Rattle.image_loaded.specs.declared.fault.ValidFault.TheVariants as valid;

    ghost from_gives = { λ _ made. made ≡ valid.Memory refused };

    fn from(error: OutOfMemory) -> ValidFault {
        ValidFault::Memory(error)
    }
}

/// Why the bytes of a file gave no image that was asked for.
#[derive(Drop)]
pub enum FileFault {
    /// They are no image: the first fault, by its number from 1 to 9 and its place from 0.
    Image { number: u8, offset: u32 },
    /// They are that of these numbers: the first test that they fail, with the part of the image
    /// that it is of.
    Invalid { raw: RawImage, fault: PartFault },
    /// There was not enough memory.
    Memory(OutOfMemory),
}

impl From<ImageFault> for FileFault {
    ghost use Rattle.std.specs.Prelude.{◌≡◌};
    ghost use Rattle.image_loaded.specs.Faults.{of_bytes};

    ghost from_gives = { λ fault made. made ≡ of_bytes fault };

    fn from(fault: ImageFault) -> FileFault {
        match fault {
            ImageFault::Bad { number, offset } => FileFault::Image { number, offset },
            ImageFault::Memory(error) => FileFault::Memory(error),
        }
    }
}

impl From<ValidFault> for FileFault {
    ghost use Rattle.std.specs.Prelude.{◌≡◌};
    ghost use Rattle.image_loaded.specs.Faults.{of_numbers};

    ghost from_gives = { λ fault made. made ≡ of_numbers fault };

    fn from(fault: ValidFault) -> FileFault {
        match fault {
            ValidFault::Invalid { raw, fault } => FileFault::Invalid { raw, fault },
            ValidFault::Memory(error) => FileFault::Memory(error),
        }
    }
}
