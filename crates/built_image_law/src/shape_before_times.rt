//! Laws: what does not depend on the numbers that are filled in last.
//!
//! An image gets its ranks, ceilings and blocks after its code, and its bounds after these. The
//! code that it holds and what it declares of costs do not depend on either, ranks, ceilings and
//! blocks do not depend on bounds, and ranks and ceilings not on those that stood there before.
//! `specs/FilledLaws.antt` says what follows: a program has one shape, its image is built once the least
//! bounds are filled in, and it is timely exactly where they are all there. Nothing here can run.
//!
//! The laws.

ghost use Rattle.built_image_law.specs.FilledLaws.{BoundedImagesAreBuilt, BuiltImagesHaveTheTable, LateWhereOneIsNone, RankedImagesAreShaped, ShapesAgree, ShapesLeaveBoundsAside, TimelyWhereAllAreThere};

/// With ranks, ceilings and blocks filled in, what holds and declares the code is shaped.
pub fn ranked_images_are_shaped()
    ensures { RankedImagesAreShaped }
{}

/// No shape depends on bounds.
pub fn shapes_leave_bounds_aside()
    ensures { ShapesLeaveBoundsAside }
{}

/// A program and an overhead have one shape.
pub fn shapes_agree()
    ensures { ShapesAgree }
{}

/// With its least bounds filled in, and its names, a shaped image is built.
pub fn bounded_images_are_built()
    ensures { BoundedImagesAreBuilt }
{}

/// A program is timely exactly where the least bounds of its shape are all there.
pub fn timely_where_all_are_there()
    ensures { TimelyWhereAllAreThere }
{}

/// A program is late exactly where one of the least bounds of its shape is none.
pub fn late_where_one_is_none()
    ensures { LateWhereOneIsNone }
{}

/// The table of a built image, with the bounds that it declares, is that of its program.
pub fn built_images_have_the_table()
    ensures { BuiltImagesHaveTheTable }
{}
