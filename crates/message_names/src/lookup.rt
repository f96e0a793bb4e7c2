//! What a name means where it stands.

ghost use Rattle.std.specs.Prelude.{◌≡◌, ◌++◌, ◌&&◌, IfOk, OnOk, bytes_eq, filter, map, option_map};
ghost use Rattle.message_names.specs.Reach.{declares_name, first_declared, inner, innermost, is_offered, meaning, members_behind, mention_at, name_at, named, names_program, nearest_of, offered, sees, sight_of};
ghost use Rattle.message_names.specs.Seen.{found, mention_of};
ghost use Rattle.message_names.specs.Told.{closed, name_of};

use crate::errors::tri;
use crate::mentions::{Mention, Mentions};
use crate::role::{Role, What, declared, monitor_before, scope_begin};
use crate::sight::{Sight, before, is_seen};
use message_text::nearest;
use out_of_memory::OutOfMemory;
use std::alloc::Global;
use syntax_tree::Place;

/// Whether a name declares what is in reach at the place.
fn sees(sight: Sight, place: Place, mention: &Mention<'_>) -> bool
    ensures { result ≡ sees sight place (mention_of mention.now) }
{
    match declared(mention.role) {
        Some(reach) => is_seen(sight, place, mention.place, reach),
        None => false,
    }
}

/// Of two declarations around a place, the one in the inner scope.
fn inner<'a>(known: Option<Mention<'a>>, mention: Mention<'a>) -> Option<Mention<'a>>
    ensures { found result ≡ inner (found known.entry) (mention_of mention.entry) }
{
    match known {
        Some(one) => {
            if before(scope_begin(one.role), scope_begin(mention.role)) {
                Some(mention)
            } else {
                known
            }
        }
        None => Some(mention),
    }
}

/// Whether a name is the one that is looked for, and declares what is in reach at the place.
fn is_meant(sight: Sight, name: &[u8], place: Place, mention: &Mention<'_>) -> bool
    ensures { result ≡ (bytes_eq mention.now.name.now name.now &&
        sees sight place (mention_of mention.now)) }
{
    mention.name == name && sees(sight, place, mention)
}

/// Of the declarations of a name in reach, the first in the innermost scope.
fn innermost<'a>(
    mentions: &Mentions<'a>,
    sight: Sight,
    name: &[u8],
    place: Place,
) -> Option<Mention<'a>>
    ensures { found result ≡ innermost sight name.now place mentions.now }
{
    let mut known = None;
    for mention in mentions.as_slice() {
        if is_meant(sight, name, place, mention) {
            known = inner(known, *mention);
        }
    }
    known
}

/// The name that stands at the place.
pub(crate) fn mention_at<'a>(mentions: &Mentions<'a>, place: Place) -> Option<Mention<'a>>
    ensures { found result ≡ mention_at place mentions.now }
{
    for mention in mentions.as_slice() {
        if mention.place == place {
            return Some(*mention);
        }
    }
    None
}

/// The bytes of a name that was looked for, none where there is none.
pub(crate) fn name_of<'a>(mention: Option<Mention<'a>>) -> &'a [u8]
    ensures { result.now ≡ name_of (found mention.entry) }
{
    match mention {
        Some(mention) => mention.name,
        None => b"",
    }
}

/// The bytes of the name that stands at the place.
pub(crate) fn name_at<'a>(mentions: &Mentions<'a>, place: Place) -> &'a [u8]
    ensures { result.now ≡ name_at place mentions.now }
{
    name_of(mention_at(mentions, place))
}

/// Where the monitor is declared whose name stands at the place.
fn members_behind(mentions: &Mentions<'_>, place: Place) -> Place
    ensures { result ≡ members_behind place mentions.now }
{
    match innermost(mentions, Sight::Around, name_at(mentions, place), place) {
        Some(monitor) => monitor.place,
        None => place,
    }
}

/// What counts as in reach where a name stands that does this.
fn sight_of(mentions: &Mentions<'_>, role: Role) -> Sight
    ensures { result ≡ sight_of mentions.now role }
{
    if let Some(reach) = declared(role) {
        return Sight::Others(reach.scope.begin);
    }
    match monitor_before(role) {
        Some(monitor) => Sight::Members(members_behind(mentions, monitor)),
        None => Sight::Around,
    }
}

/// What a name means where it stands; of one that declares, what else has its name there.
pub(crate) fn meaning<'a>(mentions: &Mentions<'a>, mention: &Mention<'_>) -> Option<Mention<'a>>
    ensures { found result ≡ meaning mentions.now (mention_of mention.now) }
{
    let sight = sight_of(mentions, mention.role);
    innermost(mentions, sight, mention.name, mention.place)
}

/// Whether this declares the name.
fn declares_name(name: &[u8], mention: &Mention<'_>) -> bool
    ensures { result ≡ declares_name name.now (mention_of mention.now) }
{
    mention.name == name && declared(mention.role).is_some()
}

/// The first declaration of a name, in reach or not.
pub(crate) fn first_declared<'a>(mentions: &Mentions<'a>, name: &[u8]) -> Option<Mention<'a>>
    ensures { found result ≡ first_declared name.now mentions.now }
{
    for mention in mentions.as_slice() {
        if declares_name(name, mention) {
            return Some(*mention);
        }
    }
    None
}

/// The name that a closing name has to repeat.
pub(crate) fn closed<'a>(mentions: &Mentions<'a>, role: Role) -> Option<Mention<'a>>
    ensures { found result ≡ closed mentions.now role }
{
    match role {
        Role::Closes(opening) => mention_at(mentions, opening),
        Role::Uses(_) | Role::Declares(_) => None,
    }
}

/// Whether the name is that of the program.
fn names_program(role: Role) -> bool
    ensures { result ≡ names_program role }
{
    match declared(role) {
        Some(reach) => matches!(reach.what, What::Program),
        None => false,
    }
}

/// Whether a name in reach could be meant: each but that of the program.
fn is_offered(sight: Sight, place: Place, mention: &Mention<'_>) -> bool
    ensures { result ≡ is_offered sight place (mention_of mention.now) }
{
    sees(sight, place, mention) && !names_program(mention.role)
}

/// Puts the names in reach that could be meant.
fn add_offered<'a>(
    offers: &mut Mentions<'a>,
    mentions: &Mentions<'a>,
    sight: Sight,
    place: Place,
) -> Result<(), OutOfMemory>
    ensures { OnOk result (offers.new ≡ offers.old ++
        filter (is_offered sight place) mentions.now) }
{
    for mention in mentions.as_slice() {
        if is_offered(sight, place, mention) {
            tri!(offers.push(*mention));
        }
    }
    Ok(())
}

/// What could be meant in place of a name.
pub(crate) fn offered<'a>(
    alloc: Global,
    mentions: &Mentions<'a>,
    mention: &Mention<'_>,
) -> Result<Mentions<'a>, OutOfMemory>
    ensures { IfOk result (λ offers. offers ≡ offered mentions.now (mention_of mention.now)) }
{
    let mut offers = Mentions::new(alloc);
    let sight = sight_of(mentions, mention.role);
    tri!(add_offered(&mut offers, mentions, sight, mention.place));
    Ok(offers)
}

/// The bytes of names.
fn names<'a>(alloc: Global, mentions: &Mentions<'a>) -> Result<Vec<&'a [u8]>, OutOfMemory>
    ensures { IfOk result (λ names.
        map (λ name. name.now) names.items ≡ map (λ m. m.name) mentions.now) }
{
    let mut names = Vec::new(alloc);
    for mention in mentions.as_slice() {
        names.push(mention.name)?;
    }
    Ok(names)
}

/// The first of these that has the name.
fn named<'a>(mentions: &Mentions<'a>, name: Option<&[u8]>) -> Option<Mention<'a>>
    ensures { found result ≡ named (option_map (λ n. n.now) name.entry) mentions.now }
{
    let Some(name) = name else {
        return None;
    };
    for mention in mentions.as_slice() {
        if mention.name == name {
            return Some(*mention);
        }
    }
    None
}

/// The nearest of these names, if one is near.
pub(crate) fn nearest_of<'a>(
    alloc: Global,
    word: &[u8],
    mentions: &Mentions<'a>,
) -> Result<Option<Mention<'a>>, OutOfMemory>
    ensures { IfOk result (λ near. found near ≡ nearest_of word.now mentions.now) }
{
    let names = tri!(names(alloc, mentions));
    let near = tri!(nearest(alloc, word, names.as_slice()));
    Ok(named(mentions, near))
}
