//! Bytes as numbers.

ghost use Rattle.image_format.specs.FormatLaw.{AreBytes};

/// Each element of a slice of bytes is below 256, as a proof comes to know here. The call does
/// nothing.
pub(crate) fn are_bytes(bytes: &[u8])
    ensures { AreBytes bytes.now }
{
    let _first = bytes.first();
}
