//! Laws: the numbers of the image that is built of a program that is written are within their
//! limits.
//!
//! `specs/Limits.antt` has them: the blocks of an image are no longer than the longest stay that
//! can be told, stacks keep to the rules of size, each handler of a text takes a number, each entry
//! has its monitor, and so the limits of validity hold. Nothing here can run.
//!
//! The laws.

ghost use Rattle.built_image_law.specs.Limits.{BlocksAreInLimits, BuiltImagesAreInLimits, EntriesHaveOwners, HandlersTakeNumbers, ShapedImagesAreInLimits, StacksAreInLimits};

/// A block is at most 1,000,000,001 ticks.
pub fn blocks_are_in_limits()
    ensures { BlocksAreInLimits }
{}

/// The stack of each process of a program that keeps the rules of size has at most 4,096 words.
pub fn stacks_are_in_limits()
    ensures { StacksAreInLimits }
{}

/// The handlers of a program that is the tree of a text take some number.
pub fn handlers_take_numbers()
    ensures { HandlersTakeNumbers }
{}

/// The monitor of each entry is there.
pub fn entries_have_owners()
    ensures { EntriesHaveOwners }
{}

/// A shaped image of a well-formed program that is written is in the limits of validity, where no
/// bound is 0.
pub fn shaped_images_are_in_limits()
    ensures { ShapedImagesAreInLimits }
{
    blocks_are_in_limits();
    stacks_are_in_limits();
    handlers_take_numbers();
    entries_have_owners();
}

/// The image that is built of a well-formed program that is written is in the limits of validity.
pub fn built_images_are_in_limits()
    ensures { BuiltImagesAreInLimits }
{
    shaped_images_are_in_limits();
}
