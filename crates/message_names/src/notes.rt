//! The notes, which show other declarations.

ghost use Rattle.std.specs.Prelude.{◌≡◌, ◌++◌, OnOk, map};
ghost use Rattle.message_names.specs.Seen.{found, mention_of};
ghost use Rattle.message_names.specs.Told.{constant_note, elsewhere, is_bare_entry, misused_notes, nearest_note, notes_of, pointed, pointed_if, taken_notes, undeclared_notes};

use crate::errors::tri;
use crate::lookup::{closed, first_declared, meaning, name_at, nearest_of, offered};
use crate::mentions::{Mention, Mentions};
use crate::role::{Role, declared, is_entry, monitor_before, scope_begin};
use crate::words::{role_words, wants_constant, words_of};
use message_text::{add_note, add_show};
use out_of_memory::OutOfMemory;
use std::alloc::Global;
use syntax_tree::Text;

/// Puts a note of these parts, with the line of a name.
fn add_pointed(
    text: &mut Text,
    source: &[u8],
    parts: &[&[u8]],
    mention: &Mention<'_>,
) -> Result<(), OutOfMemory>
    ensures { OnOk result (text.new ≡ text.old ++
        pointed source.now (map (λ part. part.now) parts.now) (mention_of mention.now)) }
{
    tri!(add_note(text, parts));
    add_show(
        text,
        source,
        mention.place.line as usize,
        mention.place.col as usize,
        mention.name.len(),
    )
}

/// Puts such a note where there is a name.
fn add_pointed_if(
    text: &mut Text,
    source: &[u8],
    parts: &[&[u8]],
    mention: Option<Mention<'_>>,
) -> Result<(), OutOfMemory>
    ensures { OnOk result (text.new ≡ text.old ++
        pointed_if source.now (map (λ part. part.now) parts.now) (found mention.entry)) }
{
    match mention {
        Some(mention) => add_pointed(text, source, parts, &mention),
        None => Ok(()),
    }
}

/// Whether it is an entry, of which the name alone was written.
fn is_bare_entry(written: Role, declaring: Role) -> bool
    ensures { result ≡ is_bare_entry written declaring }
{
    match declared(declaring) {
        Some(reach) => is_entry(reach.what) && monitor_before(written).is_none(),
        None => false,
    }
}

/// Puts what is said of a declaration of the name that is out of reach.
fn add_elsewhere(
    text: &mut Text,
    source: &[u8],
    mentions: &Mentions<'_>,
    written: Role,
    declaration: &Mention<'_>,
) -> Result<(), OutOfMemory>
    ensures { let d = mention_of declaration.now in OnOk result (text.new ≡ text.old ++
        pointed source.now (elsewhere mentions.now written d) d) }
{
    if is_bare_entry(written, declaration.role) {
        let monitor = name_at(mentions, scope_begin(declaration.role));
        let parts: [&[u8]; 5] = [
            b"write `",
            monitor,
            b".",
            declaration.name,
            b"` for the entry:",
        ];
        return add_pointed(text, source, &parts, declaration);
    }
    let parts: [&[u8]; 2] = [
        role_words(declaration.role),
        b" of that name is out of reach here:",
    ];
    add_pointed(text, source, &parts, declaration)
}

/// Puts which name is the nearest, or what can be done.
fn add_nearest(text: &mut Text, source: &[u8], near: Option<Mention<'_>>) -> Result<(), OutOfMemory>
    ensures { OnOk result (text.new ≡ text.old ++ nearest_note source.now (found near.entry)) }
{
    match near {
        Some(near) => {
            let parts: [&[u8]; 3] = [b"the nearest name in reach is `", near.name, b"`:"];
            add_pointed(text, source, &parts, &near)
        }
        None => add_note(text, &[b"declare it, or correct the name"]),
    }
}

/// Puts what is said of a name that is declared nowhere in reach, by its first declaration.
fn add_undeclared(
    alloc: Global,
    text: &mut Text,
    source: &[u8],
    mentions: &Mentions<'_>,
    mention: &Mention<'_>,
    first: Option<Mention<'_>>,
) -> Result<(), OutOfMemory>
    ensures { OnOk result (text.new ≡ text.old ++
        undeclared_notes source.now mentions.now (mention_of mention.now) (found first.entry)) }
{
    match first {
        Some(first) => add_elsewhere(text, source, mentions, mention.role, &first),
        None => {
            let offers = tri!(offered(alloc, mentions, mention));
            let near = tri!(nearest_of(alloc, mention.name, &offers));
            add_nearest(text, source, near)
        }
    }
}

/// Puts which other declaration a name has.
fn add_taken(text: &mut Text, source: &[u8], other: Option<Mention<'_>>) -> Result<(), OutOfMemory>
    ensures { OnOk result (text.new ≡ text.old ++ taken_notes source.now (found other.entry)) }
{
    let parts: [&[u8]; 3] = [
        b"the other one is ",
        words_of(other),
        b"; give one of them another name:",
    ];
    add_pointed_if(text, source, &parts, other)
}

/// Puts how a number is to be written, where a constant is wanted.
fn add_constant_note(text: &mut Text, role: Role) -> Result<(), OutOfMemory>
    ensures { OnOk result (text.new ≡ text.old ++ constant_note role) }
{
    if wants_constant(role) {
        return add_note(
            text,
            &[b"this number is fixed in the text; `exit when` ends a loop earlier"],
        );
    }
    Ok(())
}

/// Puts where a name is declared that is of the wrong kind.
fn add_misused(
    text: &mut Text,
    source: &[u8],
    role: Role,
    declaration: Option<Mention<'_>>,
) -> Result<(), OutOfMemory>
    ensures { OnOk result (text.new ≡ text.old ++
        misused_notes source.now role (found declaration.entry)) }
{
    let parts: [&[u8]; 1] = [b"it is declared here:"];
    tri!(add_pointed_if(text, source, &parts, declaration));
    add_constant_note(text, role)
}

/// Puts the notes on a name that is wrong by the rule of this number.
pub(crate) fn add_notes(
    alloc: Global,
    text: &mut Text,
    source: &[u8],
    number: u8,
    mentions: &Mentions<'_>,
    mention: &Mention<'_>,
) -> Result<(), OutOfMemory>
    ensures { OnOk result (text.new ≡ text.old ++
        notes_of source.now number mentions.now (mention_of mention.now)) }
{
    match number {
        20 => {
            let first = first_declared(mentions, mention.name);
            add_undeclared(alloc, text, source, mentions, mention, first)
        }
        21 => add_taken(text, source, meaning(mentions, mention)),
        22 => add_misused(text, source, mention.role, meaning(mentions, mention)),
        _ => add_pointed_if(
            text,
            source,
            &[b"the name behind `end` is that of:"],
            closed(mentions, mention.role),
        ),
    }
}
