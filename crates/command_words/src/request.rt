//! What words ask for.

use crate::words_command::Command;
use crate::words_load::Load;

/// What words ask for.
#[derive(Clone, Copy)]
pub enum Request<'a> {
    /// A command on what files hold.
    Command(Command<'a>),
    /// A load that is to be made.
    Load(Load<'a>),
}
