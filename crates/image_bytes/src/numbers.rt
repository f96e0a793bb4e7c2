//! The numbers that a handler takes, as a view of bytes.

ghost use Rattle.std.specs.Prelude.{IsOk};
ghost use Rattle.image_bytes.specs.Fields.{counted_numbers};

/// The numbers that a handler takes, in the order in which they stand.
#[derive(Clone, Copy)]
pub struct HandlerNumbers<'a> {
    /// How many are left.
    pub(crate) count: u16,
    /// The bytes from the first of them on.
    pub(crate) bytes: &'a [u8],
    ghost are_read: { IsOk ((counted_numbers count).read bytes.now) },
}
