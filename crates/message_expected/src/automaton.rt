//! The automaton: what may still come stands on a stack, and each word does a turn.

ghost use Rattle.std.specs.Prelude.{◌≡◌, ◌≢◌, ◌++◌, IfOk, List, OnOk, reverse};
ghost use Rattle.std.specs.List.{list_all};
ghost use Rattle.std.specs.Prelude.{take as first};
ghost use Rattle.out_of_memory.specs.Refused.{refused};
ghost use Rattle.message_expected.specs.Automaton as automaton;
ghost use Rattle.message_expected.specs.Leads.{Leads};
ghost use Rattle.message_expected.specs.Stack.{fed_to, found_on, head_of, reached_of};

use crate::kinds::Kind;
use crate::symbols::{Head, Symbol, Turn};
use crate::tokens::bytes_of;
use crate::turns::{is_optional, turn};
use out_of_memory::OutOfMemory;
use std::alloc::Global;
use syntax::{LexFault, Token, TokenKind, keyword, lex};

/// What is left of a program where no word has been read.
const PROGRAM: [Symbol; 5] = [
    Symbol::Keyword {
        at: keyword::PROGRAM,
    },
    Symbol::Name,
    Symbol::Declarations,
    Symbol::Keyword { at: keyword::END },
    Symbol::Name,
];

/// The symbol that begins with a word: its turn, the levels that are left there, and how many
/// symbols are below it.
#[derive(Clone, Copy)]
pub(crate) struct Found {
    levels: u8,
    turn: Turn,
    below: usize,
}

/// Where a word has led, with the stack changed.
#[derive(Clone, Copy)]
enum Fed {
    /// With the word, the words begin no program.
    Refused,
    /// The word opens a level beyond the last.
    TooDeep,
    /// So many levels are left.
    On { levels: u8 },
}

/// Where words have led.
#[derive(Drop)]
pub(crate) enum Reached {
    /// To one with which they begin no program.
    Stopped,
    /// To one that opens a level beyond the last.
    TooDeep,
    /// To these levels that are left, and to this stack, whose top stands last.
    On { levels: u8, stack: Vec<Symbol> },
}

/// The levels that are left behind the symbol.
fn levels_behind(symbol: Symbol, levels: u8) -> u8
    ensures { result ≡ automaton.levels_behind symbol levels }
{
    match symbol {
        Symbol::Leave { levels } => levels,
        _ => levels,
    }
}

/// Whether a symbol does not begin with a word.
fn is_refused(head: Head) -> bool
    ensures { result ≡ automaton.is_refused (head_of head) }
{
    match head {
        Head::Refused => true,
        _ => false,
    }
}

/// The first symbol from the top that begins with the word, past those that nothing may stand for.
fn find(mut levels: u8, stack: &[Symbol], kind: Kind) -> Option<Found>
    ensures { found_on stack.now result ≡ automaton.find levels (reverse stack.now) kind }
{
    let mut below = stack.len();
    while below > 0 {
        below -= 1;
        let symbol = stack[below];
        let turn = turn(symbol, kind);
        if !is_refused(turn.head) {
            return Some(Found {
                levels,
                turn,
                below,
            });
        }
        if !is_optional(symbol) {
            return None;
        }
        levels = levels_behind(symbol, levels);
    }
    None
}

/// Puts these on the stack, the first of them on top.
fn put(stack: &mut Vec<Symbol>, symbols: &[Symbol]) -> Result<(), OutOfMemory>
    ensures { OnOk result (stack.new.items ≡ stack.old.items ++ reverse symbols.now) }
{
    let mut left = symbols.len();
    while left > 0 {
        left -= 1;
        stack.push(symbols[left])?;
    }
    Ok(())
}

/// Does the turn of what was found.
fn take(stack: &mut Vec<Symbol>, found: Found) -> Result<Fed, OutOfMemory>
    ensures { IfOk result (λ fed. fed_to stack.new.items fed ≡
        automaton.taken found.levels (head_of found.turn.head)
        (found.turn.behind.now ++ reverse (first found.below stack.old.items))) }
{
    stack.truncate(found.below);
    put(stack, found.turn.behind)?;
    match found.turn.head {
        Head::Refused => Ok(Fed::Refused),
        Head::Along { symbols } => {
            put(stack, symbols)?;
            Ok(Fed::On {
                levels: found.levels,
            })
        }
        Head::Inside { symbols } => {
            if found.levels == 0 {
                return Ok(Fed::TooDeep);
            }
            stack.push(Symbol::Leave {
                levels: found.levels,
            })?;
            put(stack, symbols)?;
            Ok(Fed::On {
                levels: found.levels - 1,
            })
        }
    }
}

/// Goes on with one word.
fn feed(stack: &mut Vec<Symbol>, levels: u8, kind: Kind) -> Result<Fed, OutOfMemory>
    ensures { IfOk result (λ fed. fed_to stack.new.items fed ≡
        automaton.feed levels (reverse stack.old.items) kind) }
{
    match find(levels, stack.as_slice(), kind) {
        Some(found) => take(stack, found),
        None => Ok(Fed::Refused),
    }
}

/// The kind of a token's word.
fn kind_in(text: &[u8], token: Token) -> Kind
    ensures { result ≡ automaton.kind_in text.now token }
{
    match token.kind {
        TokenKind::Ident => {
            if bytes_of(text, token) == b"deadline".as_slice() {
                Kind::Deadline
            } else {
                Kind::Name
            }
        }
        TokenKind::Keyword { at } => Kind::Keyword { at },
        TokenKind::Literal { .. } => Kind::Number,
        TokenKind::Sign { at } => Kind::Sign { at },
    }
}

/// Where these tokens of the text lead.
fn lead(alloc: Global, text: &[u8], all: &[Token]) -> Result<Reached, OutOfMemory>
    ensures { IfOk result (λ it. reached_of it ≡
        automaton.reach automaton.start (automaton.kinds_in text.now all.now)) }
{
    let mut stack = Vec::new(alloc);
    put(&mut stack, &PROGRAM)?;
    let mut levels = 64;
    for index in 0..all.len() {
        match feed(&mut stack, levels, kind_in(text, all[index]))? {
            Fed::Refused => return Ok(Reached::Stopped),
            Fed::TooDeep => return Ok(Reached::TooDeep),
            Fed::On { levels: left } => levels = left,
        }
    }
    Ok(Reached::On { levels, stack })
}

/// That a text of this fault leads nowhere.
fn lead_nowhere(fault: LexFault) -> Result<Reached, OutOfMemory>
    ensures { IfOk result (λ it. (reached_of it ≡ automaton.stopped) ×
        (fault ≢ LexFault.Memory refused)) }
{
    match fault {
        LexFault::Memory(error) => Err(error),
        _ => Ok(Reached::Stopped),
    }
}

/// Where the words of the text lead; a text without tokens leads nowhere.
pub(crate) fn read(alloc: Global, text: &[u8]) -> Result<Reached, OutOfMemory>
    ensures { IfOk result (λ it. Leads text.now (reached_of it)) }
{
    match lex(alloc, text) {
        Ok(tokens) => lead(alloc, text, tokens.as_slice()),
        Err(fault) => lead_nowhere(fault),
    }
}

/// Whether a word of this kind may stand there.
pub(crate) fn goes_on(reached: &Reached, kind: Kind) -> bool
    ensures { result ≡ automaton.goes_on (reached_of reached.now) kind }
{
    match reached {
        Reached::Stopped => false,
        Reached::TooDeep => true,
        Reached::On { levels, stack } => find(*levels, stack.as_slice(), kind).is_some(),
    }
}

/// Whether nothing at all may stand for each of these.
fn are_optional(stack: &[Symbol]) -> bool
    ensures { result ≡ list_all automaton.is_optional stack.now }
{
    stack.iter().all(|symbol| is_optional(*symbol))
}

/// Whether what is left of a program is nothing, or may be.
pub(crate) fn is_whole(reached: &Reached) -> bool
    ensures { result ≡ automaton.is_whole (reached_of reached.now) }
{
    match reached {
        Reached::Stopped | Reached::TooDeep => false,
        Reached::On { stack, .. } => are_optional(stack.as_slice()),
    }
}
