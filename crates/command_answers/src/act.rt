//! What is left of a call.

ghost use Rattle.std.specs.Prelude.{◌≡◌};
ghost use Rattle.command_answers.specs.Acts.{image_in};

use crate::status::Status;
use image_bytes::ImageBytes;
use image_loaded::Image;
use script::Script;
use syntax_tree::Text;

/// An image that is to be stored: the name of its file, and its bytes.
#[derive(Drop)]
pub struct Store<'a> {
    pub name: &'a str,
    pub bytes: Vec<u8>,
}

/// An image that is to be run, by which of its ready processes runs.
#[derive(Drop)]
pub enum RunnableImage {
    /// The one of the highest active rank.
    Ranks(Image),
    /// The one with the earliest deadline, as far as the ceilings let it.
    Deadlines(ImageBytes),
}

impl RunnableImage {
    /// The image as it stands in its bytes.
    pub fn image(&self) -> &ImageBytes
        ensures { result.now ≡ image_in self.now }
    {
        match self {
            RunnableImage::Ranks(image) => image.image(),
            RunnableImage::Deadlines(image) => image,
        }
    }
}

/// A run whose log is to be put.
#[derive(Drop)]
pub struct PreparedRun {
    pub image: RunnableImage,
    pub script: Script,
}

/// What is left of a call when all is read and judged: an image is stored, a text is put, and then
/// the log of a run, each as far as there is one. The status is that of a call in which nothing
/// fails from here on.
#[derive(Drop)]
pub struct PreparedCall<'a> {
    pub status: Status<'a>,
    pub text: Text,
    pub store: Option<Store<'a>>,
    pub run: Option<PreparedRun>,
}
