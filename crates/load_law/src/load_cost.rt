//! Law: the images of the load's program are light: each process asks for 900 ticks at most, of
//! 1,000 for each process that its frame has at least, and no entry stays for more than 100.
//!
//! `load_law` says so in `specs/Time.antt`. Nothing is to run.
//!
//! The law.

ghost use Rattle.load_law.specs.Time.{IsLightLoad};

/// An image of the code and the costs of the load's program, with 1 to 64 processes and no
/// overhead, is light.
pub fn load_is_light()
    ensures { IsLightLoad }
{}
