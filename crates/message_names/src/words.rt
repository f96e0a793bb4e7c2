//! What names are, and what is wanted of them.

ghost use Rattle.std.specs.Prelude.{◌≡◌};
ghost use Rattle.message_names.specs.Seen.{found};
ghost use Rattle.message_names.specs.Told.{role_words, wanted_at, wanted_words, wants_constant, what_words, words_of};

use crate::mentions::Mention;
use crate::role::{Role, Wanted, What, declared};

/// What a name is declared as.
fn what_words(what: What) -> &'static [u8]
    ensures { result.now ≡ what_words what }
{
    match what {
        What::Program => b"the program",
        What::Constant => b"a constant",
        What::Device => b"a device",
        What::Event => b"an event",
        What::Monitor => b"a monitor",
        What::Condition => b"a condition",
        What::Procedure => b"a procedure",
        What::Function => b"a function",
        What::Entry => b"an entry",
        What::Process => b"a process",
        What::Variable => b"a variable",
        What::Parameter => b"a parameter",
        What::LoopVariable => b"a loop variable",
    }
}

/// What a name is to be that is used.
fn wanted_words(wanted: Wanted) -> &'static [u8]
    ensures { result.now ≡ wanted_words wanted }
{
    match wanted {
        Wanted::Constant => b"a constant",
        Wanted::Value => b"a variable or a constant",
        Wanted::Target => b"a variable or a parameter",
        Wanted::Routine => b"a procedure or a function",
        Wanted::Entry(_) => b"an entry",
        Wanted::Device => b"a device",
        Wanted::Event => b"an event",
        Wanted::Monitor => b"a monitor",
        Wanted::Condition => b"a condition",
    }
}

/// What a name is that was looked for.
pub(crate) fn words_of(mention: Option<Mention<'_>>) -> &'static [u8]
    ensures { result.now ≡ words_of (found mention.entry) }
{
    match mention {
        Some(mention) => role_words(mention.role),
        None => b"declared nowhere",
    }
}

/// What the name is that does this.
pub(crate) fn role_words(role: Role) -> &'static [u8]
    ensures { result.now ≡ role_words role }
{
    match declared(role) {
        Some(reach) => what_words(reach.what),
        None => b"declared nowhere",
    }
}

/// What is wanted where a name stands.
pub(crate) fn wanted_at(role: Role) -> &'static [u8]
    ensures { result.now ≡ wanted_at role }
{
    match role {
        Role::Uses(wanted) => wanted_words(wanted),
        Role::Declares(_) | Role::Closes(_) => b"another name",
    }
}

/// Whether a constant is wanted where the name stands.
pub(crate) fn wants_constant(role: Role) -> bool
    ensures { result ≡ wants_constant role }
{
    matches!(role, Role::Uses(Wanted::Constant))
}
