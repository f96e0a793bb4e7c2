//! Images of bytes.

use image_loaded::{FileFault, Image};
use std::alloc::Global;
use std::test::Fail;

/// The valid image that bytes are.
pub fn load(alloc: Global, bytes: Vec<u8>) -> Result<Image, Fail> {
    match Image::load(alloc, bytes) {
        Ok(image) => Ok(image),
        Err(FileFault::Memory(error)) => Err(Fail::from(error)),
        Err(_) => Err(Fail::new("no image")),
    }
}
