//! What a run needs of an image.

use machine_isa::Instr;
use vm_instructions::Ends;
use vm_instructions::calls::RoutineHeader;

/// When a process is released; times are ticks.
#[derive(Clone, Copy, Debug, PartialEq, Eq)]
pub enum Release {
    /// At first, and then each frame.
    Periodic { first: u64, frame: u64 },
    /// When the event with this number occurs.
    Event { event: u16 },
}

/// What a run needs of a process; 1 is the highest rank.
#[derive(Drop)]
pub struct DecodedProcess {
    pub release: Release,
    pub rank: u16,
    /// The address of its body.
    pub start: usize,
    /// The address of its handler, and where its parts end.
    pub ends: Ends,
    /// The exception numbers that its handler takes.
    pub numbers: Vec<u16>,
    /// The words that it keeps between activations, those of its stack, and the locals of its own
    /// frame.
    pub words: usize,
    pub stack: usize,
    pub locals: usize,
}

/// What a run needs of an image, decoded once.
#[derive(Drop)]
pub struct DecodedImage {
    pub code: Vec<Instr>,
    pub routines: Vec<RoutineHeader>,
    pub processes: Vec<DecodedProcess>,
    /// By condition the number of its monitor.
    pub conditions: Vec<u16>,
    /// By monitor its ceiling.
    pub ceilings: Vec<u16>,
    /// The words of all monitors.
    pub shared: usize,
    /// How many devices there are.
    pub devices: usize,
    /// The ticks of a dispatch in and one out.
    pub dispatch_ticks: u32,
}
