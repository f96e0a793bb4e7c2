//! Flags and names at the end of a buffer. After an error the buffer may hold a part of one.

ghost use Rattle.std.specs.Prelude.{◌≡◌, ◌++◌, ◌<◌, ◌^◌, length, OnOk};
ghost use Rattle.image_format.specs.Numbers.{flag, name_bytes};

use image_format::put_u8;
use out_of_memory::OutOfMemory;
use syntax_tree::Name;

/// Puts 1 for true and 0 for false.
pub fn put_flag(out: &mut Vec<u8>, holds: bool) -> Result<(), OutOfMemory>
    ensures { OnOk result (out.new.items ≡ out.old.items ++ flag holds) }
{
    put_u8(out, if holds { 1 } else { 0 })?;
    Ok(())
}

/// Puts a name after the byte of its length.
pub fn put_name(out: &mut Vec<u8>, name: &Name) -> Result<(), OutOfMemory>
    requires { length name.now < 2 ^ 8 }
    ensures { OnOk result (out.new.items ≡ out.old.items ++ name_bytes name.now) }
{
    let bytes = name.as_bytes();
    put_u8(out, bytes.len() as u8)?;
    out.extend_from_slice(bytes)?;
    Ok(())
}
