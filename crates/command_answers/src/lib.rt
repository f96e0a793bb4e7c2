//! Acts, statuses, fault lines; what statuses 0 and 3 promise.
//!
//! `specs/Files.antt` says which files a call reads and writes and what is due of it by what they
//! hold, `specs/Went.antt` what each status says of the call, `specs/Tried.antt` which files were
//! read and written, `specs/Causes.antt` which of them, or the output, ended it, `specs/Acts.antt`
//! what an act comes to: an act is what is left of a call when all is read and judged.
//!
//! `specs/Promise.antt` and `specs/Runs.antt` are the sentence that the top call carries: what
//! statuses 0 and 3 say of texts, images, scripts and runs.
//!
//! The calls read files, judge scripts, and write the lines of faults. What is promised of a
//! content (`specs/Contents.antt`) holds for each text that it can be, so for the one in the file.
//! `specs/Prepared.antt` says what it means that an act is prepared, or that a read failed.
//!
//! What is run by ranks is an `Image` of `image_loaded`, so valid by its type; such a one can be run
//! over each script for its names (`valid_images_can_be_run`).
#![tactic(auto)]

mod act;
mod acts;
mod lines;
mod prepare_error;
mod reading;
mod runnable_images;
mod scripts;
mod status;

pub use act::{PreparedCall, PreparedRun, RunnableImage, Store};
pub use acts::{put, put_fault};
pub use lines::{
    fault_line, image_fault_line, log_fault_line, refused_line, run_line, script_fault_line,
    text_fault_line, valid_fault_line,
};
pub use prepare_error::PrepareError;
pub use reading::{
    Content, LONGEST_IMAGE, LONGEST_IMAGE_TEXT, LONGEST_LOG, LONGEST_PROGRAM, LONGEST_SCRIPT, read,
};
pub use runnable_images::valid_images_can_be_run;
pub use scripts::{judge_script, refuse_script};
pub use status::Status;
