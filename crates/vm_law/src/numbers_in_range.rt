//! Law: what the instructions of a valid image number is there.
//!
//! `specs/Operands.antt` says of each instruction that others see which of its operands number a
//! monitor, a condition or a device, and in which range its other operands are. The law stands
//! there too; nothing here can run.
//!
//! The law.

ghost use Rattle.vm_law.specs.Operands.{ValidOperandsAreThere};

/// In a valid image each monitor, condition and device that an instruction numbers is there, no
/// limit is above 1,000,000,000, and no exception number above 999.
pub fn valid_operands_are_there()
    ensures { ValidOperandsAreThere }
{}
