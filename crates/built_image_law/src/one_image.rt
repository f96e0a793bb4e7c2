//! Laws: the image of a program with an overhead is one.
//!
//! The code of the program, its costs and an overhead fix an image but for its bounds
//! (`ShapesAgree` of `shape_before_times`), and the bounds are the least solutions of the
//! recurrences. `specs/Once.antt` says what follows: a program has one image and one table, and no
//! program that has an image in time is late. Nothing here can run.
//!
//! The laws.

ghost use Rattle.built_image_law.specs.Once.{BuiltImagesAreOne, TablesAreOne, TimelyOrLate};

use crate::shape_before_times::shapes_agree;

/// With its bounds, the image of a program is one.
pub fn built_images_are_one()
    ensures { BuiltImagesAreOne }
{
    shapes_agree();
}

/// The table of a program is one.
pub fn tables_are_one()
    ensures { TablesAreOne }
{
    shapes_agree();
}

/// A program that has an image in time is not late.
pub fn timely_or_late()
    ensures { TimelyOrLate }
{
    shapes_agree();
}
