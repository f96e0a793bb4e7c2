//! Admitted images.

ghost use Rattle.std.specs.Prelude.{◌≡◌, ◌≤◌};
ghost use Rattle.edf_admission.specs.Admitted.{IsAdmitted};
ghost use Rattle.edf_admission.specs.EdfAnswers.{Admits};
ghost use Rattle.edf_admission.specs.Runs.{IsEdfSafe};
ghost use Rattle.edf_semantics.specs.InTime.{MeetsDeadlines};
ghost use Rattle.machine_semantics.specs.Image.{Script};
ghost use Rattle.image_loaded.specs.Shape.{IsShape};
ghost use Rattle.sched_timing.specs.Timed.{RespectsFrames};

use crate::admission_law::every_admitted_shape_meets_deadlines;
use crate::asking::judge_image;
use crate::edf_fault::EdfFault;
use crate::waiting::first_wait;
use image_bytes::ImageBytes;
use image_loaded::Shape;
use sched_demand::Judgement;
use std::alloc::Global;
use std::marker::Model;

/// An image that may run under earliest deadline first.
#[derive(Drop)]
pub struct EdfImage {
    image: ImageBytes,
}

impl Model for EdfImage {
    ghost use Rattle.edf_admission.specs.Admitted.{IsAdmitted};
    ghost use Rattle.image.specs.Named.{NamedImage};
    ghost use Rattle.image_loaded.specs.Shape.{IsShape};
    ghost use Rattle.image_format.specs.TreeCode.{coded_segs};
    ghost use Rattle.std.specs.Coded.{codes};

    ghost Value = { NamedImage };

    ghost coded = { Prim.hlevel (codes, coded_segs) };

    ghost view = { λ i. i.image };

    ghost invariant = { λ i. IsShape i.image × IsAdmitted i.image.image };
}

impl EdfImage {
    /// The image of a shape without a WAIT instruction and without overhead, whose demand is
    /// feasible.
    ///
    /// # Errors
    ///
    /// `Waits` exactly where the code has a WAIT instruction, with the address of the first one;
    /// else `Overhead` exactly where the overhead is not 0, with the overhead; else `Unfit` exactly
    /// where the test of the demand does not say that it is feasible, with what it says. Or
    /// `Memory`, where there is not enough for the test.
    pub fn admit(alloc: Global, shape: Shape) -> Result<EdfImage, EdfFault>
        ensures { Admits shape result }
    {
        if let Some(at) = first_wait(&shape) {
            return Err(EdfFault::Waits { at });
        }
        let over = shape.overhead();
        if over != 0 {
            return Err(EdfFault::Overhead { over });
        }
        shape.has_no_fault_before_bounds();
        match judge_image(alloc, shape.image()) {
            Ok(Judgement::Feasible { points: _ }) => Ok(EdfImage::of_admitted(shape.into_image())),
            Ok(judgement) => Err(EdfFault::Unfit(judgement)),
            Err(error) => Err(EdfFault::Memory(error)),
        }
    }

    /// The image, which the caller has proved to be a shape that is admitted, as that of every text
    /// whose demand is met. Nothing is tested: it is the one way to one without the tests.
    pub fn of_admitted(image: ImageBytes) -> EdfImage
        requires shape { IsShape image }
        requires admitted { IsAdmitted image.image }
        ensures { result ≡ image }
    {
        EdfImage { image }
    }

    /// The image as it stands in its bytes.
    pub fn image(&self) -> &ImageBytes
        ensures { result.now ≡ self.now }
    {
        &self.image
    }

    /// It is a shape that is admitted. The call does nothing.
    pub fn is_admitted(&self)
        ensures shape { IsShape self.now }
        ensures admitted { IsAdmitted self.now.image }
    {
        let _image = &self.image;
    }

    /// The image as it stands in its bytes, which are not copied.
    pub fn into_image(self) -> ImageBytes
        ensures { result ≡ self }
    {
        self.image
    }

    /// Every run of an admitted image under earliest deadline first is safe: no tick is stuck, each
    /// process is within its stack and has its words, and those inside monitors are apart and
    /// ready. Over a script that respects the frames and ends by tick 1,000,000,000, no process is
    /// released before it has ended, and each activation ends by its deadline. The call does
    /// nothing.
    pub fn runs_meet_deadlines(&self)
        ensures safe { (script : Script) → IsEdfSafe self.now.image script }
        ensures in_time { (script : Script) → RespectsFrames self.now.image script →
            script.end_tick ≤ 1000000000 → MeetsDeadlines self.now.image script }
    {
        let _image = &self.image;
        every_admitted_shape_meets_deadlines();
    }
}
