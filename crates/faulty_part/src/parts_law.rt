//! The law.

ghost use Rattle.faulty_part.specs.Law.{PartsHaveTheFault};

/// Of every image, the fault that is told with its part has the number and the two numbers of the
/// image's fault; and there is one exactly where the image has a fault.
pub fn parts_have_the_fault()
    ensures { PartsHaveTheFault }
{}
