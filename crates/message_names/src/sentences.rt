//! What is wrong with a name.

ghost use Rattle.std.specs.Prelude.{◌≡◌, ◌++◌, OnOk};
ghost use Rattle.message_names.specs.Seen.{mention_of};
ghost use Rattle.message_names.specs.Told.{closed, misclosed, misused, name_of, sentence_of, taken, undeclared_behind};

use crate::lookup::{closed, meaning, name_at, name_of};
use crate::mentions::{Mention, Mentions};
use crate::role::monitor_before;
use crate::words::{wanted_at, words_of};
use message_text::add_quoted;
use out_of_memory::OutOfMemory;
use syntax_tree::{Place, Text};

/// Puts that a name is declared nowhere in reach, or that the monitor has no entry of that name.
fn add_undeclared_behind(
    text: &mut Text,
    mentions: &Mentions<'_>,
    name: &[u8],
    monitor: Option<Place>,
) -> Result<(), OutOfMemory>
    ensures { OnOk result (text.new ≡ text.old ++
        undeclared_behind mentions.now name.now monitor) }
{
    match monitor {
        Some(monitor) => {
            text.extend(b"the monitor ")?;
            add_quoted(text, name_at(mentions, monitor))?;
            text.extend(b" has no entry ")?;
            add_quoted(text, name)
        }
        None => {
            add_quoted(text, name)?;
            text.extend(b" is declared nowhere in reach")
        }
    }
}

/// Puts that a name is declared already.
fn add_taken(text: &mut Text, name: &[u8]) -> Result<(), OutOfMemory>
    ensures { OnOk result (text.new ≡ text.old ++ taken name.now) }
{
    add_quoted(text, name)?;
    text.extend(b" is declared already")
}

/// Puts what a name is, and what is wanted.
fn add_misused(text: &mut Text, name: &[u8], what: &[u8], wanted: &[u8]) -> Result<(), OutOfMemory>
    ensures { OnOk result (text.new ≡ text.old ++ misused name.now what.now wanted.now) }
{
    add_quoted(text, name)?;
    text.extend(b" is ")?;
    text.extend(what)?;
    text.extend(b"; wanted is ")?;
    text.extend(wanted)
}

/// Puts that a name closes nothing, and which is wanted.
fn add_misclosed(text: &mut Text, name: &[u8], wanted: &[u8]) -> Result<(), OutOfMemory>
    ensures { OnOk result (text.new ≡ text.old ++ misclosed name.now wanted.now) }
{
    add_quoted(text, name)?;
    text.extend(b" closes nothing; wanted is ")?;
    add_quoted(text, wanted)
}

/// Puts that a closing name closes nothing, and which it has to repeat.
fn add_closing(
    text: &mut Text,
    mentions: &Mentions<'_>,
    mention: &Mention<'_>,
) -> Result<(), OutOfMemory>
    ensures { let m = mention_of mention.now in OnOk result (text.new ≡ text.old ++
        misclosed m.name (name_of (closed mentions.now m.role))) }
{
    let wanted = name_of(closed(mentions, mention.role));
    add_misclosed(text, mention.name, wanted)
}

/// Puts what is wrong with a name by the rule of this number, 20 to 23.
pub(crate) fn add_sentence(
    text: &mut Text,
    number: u8,
    mentions: &Mentions<'_>,
    mention: &Mention<'_>,
) -> Result<(), OutOfMemory>
    ensures { OnOk result (text.new ≡ text.old ++
        sentence_of number mentions.now (mention_of mention.now)) }
{
    match number {
        20 => add_undeclared_behind(text, mentions, mention.name, monitor_before(mention.role)),
        21 => add_taken(text, mention.name),
        22 => add_misused(
            text,
            mention.name,
            words_of(meaning(mentions, mention)),
            wanted_at(mention.role),
        ),
        _ => add_closing(text, mentions, mention),
    }
}
