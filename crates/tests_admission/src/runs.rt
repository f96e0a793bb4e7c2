//! Runs of admitted images.

ghost use Rattle.std.specs.Prelude.{IfOk};
ghost use Rattle.command_answers.specs.Acts.{CanRun};
ghost use Rattle.image_loaded.specs.Shape.{AreOf};

use command_answers::PreparedRun;
use command_perform::Ready;
use edf_admission::{EdfImage, images_of_files_can_be_run};
use image_loaded::Shape;
use outside::MemorySink;
use script::read_script;
use std::alloc::Global;
use std::test::Fail;

/// The image of a program of two processes: `p` has a frame of 30 and puts 1 to the device `a`, `q`
/// has one of 52 and puts 2 and 3.
const TWO: &str =
    "52544555000200000002000000000001000000000000000801650161010170000000001e0000001e00000000000000010000000f0000000000000000000000000000000f00000000000000010000000000000000000000000000000000010100000002017100000000340000003400000000000000020000001a0000000000000000000000000000003400000000000000010000000000000003000000000000000000010100000004010000000100000000000000002e00000000000000000000000030000000000000000000000000010000000200000000000000002e000000000000000000000000010000000300000000000000002e00000000000000000000000030000000000000000000000000";

/// Its log up to tick 60.
const LOG: &str =
    "0 p release\n0 q release\n10 p put a 1\n14 p end\n25 q put a 2\n30 p release\n36 q put a 3\n40 q end\n51 p put a 1\n52 q release\n55 p end\n";

/// The shape that the bytes are.
fn shape_of(alloc: Global, bytes: &[u8]) -> Result<Shape, Fail>
    ensures { IfOk result (λ shape. AreOf bytes.now shape) }
{
    match Shape::load(alloc, Vec::from_slice(alloc, bytes)?) {
        Ok(shape) => Ok(shape),
        Err(_) => Err(Fail::new("no shape")),
    }
}

/// The admitted image that the bytes are.
fn admitted(alloc: Global, bytes: &[u8]) -> Result<EdfImage, Fail>
    ensures { IfOk result (λ image. AreOf bytes.now image) }
{
    Ok(EdfImage::admit(alloc, shape_of(alloc, bytes)?)?)
}

/// The run of the image that the bytes are, over the script.
fn run_of(alloc: Global, bytes: &[u8], text: &[u8]) -> Result<PreparedRun, Fail>
    ensures { IfOk result CanRun }
{
    let image = admitted(alloc, bytes)?;
    let script = read_script(alloc, text, image.image().names())?;
    images_of_files_can_be_run(&image);
    Ok(image.over(script))
}

/// Puts the log of a run.
fn put_log(alloc: Global, run: &PreparedRun, out: &mut MemorySink) -> Result<(), Fail>
    requires { CanRun run.now }
{
    let mut ready = Ready::new(alloc, run)?;
    match ready.put_log(out) {
        Ok(()) => Ok(()),
        Err(_) => Err(Fail::new("a put failed")),
    }
}

fn holds(out: &MemorySink, log: &str) -> Result<(), Fail> {
    if out.bytes() == log.as_bytes() {
        return Ok(());
    }
    Err(Fail::new("the log is another"))
}

/// Puts the log of a run, which has to be this.
fn puts(alloc: Global, run: &PreparedRun, log: &str) -> Result<(), Fail>
    requires { CanRun run.now }
{
    let mut out = MemorySink::new(alloc, 1000, Vec::new(alloc))?;
    put_log(alloc, run, &mut out)?;
    holds(&out, log)
}

/// The bytes are an image that is admitted, and puts the log over the script.
fn runs(alloc: Global, bytes: &[u8], text: &[u8], log: &str) -> Result<(), Fail> {
    let run = run_of(alloc, bytes, text)?;
    puts(alloc, &run, log)
}

#[test]
fn runs_an_image_of_two_processes(rt: HostRuntime) -> Result<(), Fail> {
    let two = hex::decode(rt.alloc(), TWO)?;
    runs(rt.alloc(), two.as_slice(), b"end 60\n", LOG)
}
