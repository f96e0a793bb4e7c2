//! Laws: the text of an image and its bytes lead to each other.
//!
//! `specs/Images.antt` says what is due of `asm` behind `dis`, of `dis` behind `asm`, and of
//! `migrate`. Nothing here can run.
//!
//! The laws.

ghost use Rattle.calls_law.specs.Images.{AsmThenDisKeeps, DisThenAsmIsMigrate, DisThenAsmKeepsTheSecond, MigrateKeepsTheSecond};

use asm_law::text_and_image::images_told_are_held;
use command_due_law::one_answer::{asm_is_one, dis_is_one, migrate_is_one};
use image_reader_law::images_read_are_written;

/// `dis` and then `asm` come to what `migrate` comes to: the bytes of the image in the second
/// version, or the fault of one that is not valid.
pub fn dis_then_asm_is_migrate()
    ensures { DisThenAsmIsMigrate }
{
    asm_is_one();
}

/// `migrate` of a valid image of the second version stores the same bytes.
pub fn migrate_keeps_the_second()
    ensures { MigrateKeepsTheSecond }
{
    images_read_are_written();
    migrate_is_one();
}

/// `dis` and then `asm` of such an image store the same bytes.
pub fn dis_then_asm_keeps_the_second()
    ensures { DisThenAsmKeepsTheSecond }
{
    migrate_keeps_the_second();
    dis_then_asm_is_migrate();
}

/// `asm` and then `dis` store the same text.
pub fn asm_then_dis_keeps()
    ensures { AsmThenDisKeeps }
{
    images_told_are_held();
    dis_is_one();
}
