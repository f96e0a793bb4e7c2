//! An activation.

ghost use Rattle.std.specs.Prelude.{◌≡◌, ◌≤◌};
ghost use Rattle.vm_instructions.specs.Silent.{IsRaised, IsReleased};
ghost use Rattle.machine_semantics.specs.Starts.{lists};

use crate::Frames;

/// An activation: the address of its instruction, the ticks of it that have passed, the ticks of
/// dispatch that it burns before, and its frames.
#[derive(Drop)]
pub struct Activation {
    pub place: usize,
    pub done: u32,
    pub dispatch_ticks: u32,
    pub frames: Frames,
    pub handling: bool,
    pub inside: Option<u16>,
}

/// What a raise needs to know of the process.
#[derive(Clone, Copy)]
pub struct Ends {
    pub handler: usize,
    /// Where its body ends, and where its handler does.
    pub body: usize,
    pub handled: usize,
}

/// Whether the handler takes the number.
fn is_listed(numbers: &[u16], number: u16) -> bool
    ensures { result ≡ lists numbers.now number }
{
    numbers.contains(&number)
}

impl Activation {
    /// Puts the process at its start, with so many ticks to burn.
    pub fn release(&mut self, start: usize, locals: usize, dispatch_ticks: u32)
        requires { locals ≤ self.old.frames.room }
        ensures released { IsReleased start locals dispatch_ticks self.new }
        ensures room { self.new.frames.room ≡ self.old.frames.room }
    {
        self.place = start;
        self.done = 0;
        self.dispatch_ticks = dispatch_ticks;
        self.handling = false;
        self.inside = None;
        self.frames.begin(locals);
    }

    /// Raises an exception.
    pub fn raise(&mut self, numbers: &[u16], number: u16, ends: Ends)
        ensures raised { IsRaised numbers.now number ends self.old self.new }
        ensures room { self.new.frames.room ≡ self.old.frames.room }
    {
        if !self.handling && is_listed(numbers, number) {
            self.place = ends.handler;
            self.handling = true;
        } else if self.handling {
            self.place = ends.handled;
        } else {
            self.place = ends.body;
        }
        self.done = 0;
        self.inside = None;
        self.frames.drop_calls();
    }
}
