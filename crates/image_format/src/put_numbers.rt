//! Numbers at the end of a buffer. After an error the buffer may hold a part of one.

ghost use Rattle.std.specs.Prelude.{◌≡◌, ◌++◌, OnOk};
ghost use Rattle.image_format.specs.Numbers.{u8 as one_byte, u16 as two_bytes, u32 as four_bytes};

use byteorder::{BigEndian, ByteOrder};
use out_of_memory::OutOfMemory;

/// Puts a number of one byte.
pub fn put_u8(out: &mut Vec<u8>, number: u8) -> Result<(), OutOfMemory>
    ensures { OnOk result (out.new.items ≡ out.old.items ++ one_byte number) }
{
    out.push(number)?;
    Ok(())
}

/// Puts a number of two bytes, the highest first.
pub fn put_u16(out: &mut Vec<u8>, number: u16) -> Result<(), OutOfMemory>
    ensures { OnOk result (out.new.items ≡ out.old.items ++ two_bytes number) }
{
    let mut bytes = [0; 2];
    BigEndian::write_u16(&mut bytes, number);
    out.extend_from_slice(&bytes)?;
    Ok(())
}

/// Puts a number of four bytes, the highest first.
pub fn put_u32(out: &mut Vec<u8>, number: u32) -> Result<(), OutOfMemory>
    ensures { OnOk result (out.new.items ≡ out.old.items ++ four_bytes number) }
{
    let mut bytes = [0; 4];
    BigEndian::write_u32(&mut bytes, number);
    out.extend_from_slice(&bytes)?;
    Ok(())
}
