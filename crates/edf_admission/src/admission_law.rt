//! The laws.

ghost use Rattle.edf_admission.specs.EdfAdmit.{AdmittedShapesAreNotRefused, EachShapeHasOneAnswer};
ghost use Rattle.edf_admission.specs.Runs.{EveryAdmittedShapeMeetsDeadlines};

/// The test of the demand says one thing of a shape, and no other.
pub fn each_shape_has_one_answer()
    ensures { EachShapeHasOneAnswer }
{}

/// A shape that is admitted is refused for want of memory alone.
pub fn admitted_shapes_are_not_refused()
    ensures { AdmittedShapesAreNotRefused }
{
    each_shape_has_one_answer();
}

/// Each admitted shape, whoever made it, is safe over every script, and meets its deadlines over
/// each that respects its frames and ends by tick 1,000,000,000.
pub fn every_admitted_shape_meets_deadlines()
    ensures { EveryAdmittedShapeMeetsDeadlines }
{}
