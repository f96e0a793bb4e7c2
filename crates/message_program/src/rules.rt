//! The message for a program that fails a static rule.

ghost use Rattle.std.specs.Prelude.{◌≡◌, IfOk, IfSome, None, unwrap_or};
ghost use Rattle.front_end.specs.Source.{IsTreeOf};
ghost use Rattle.message_program.specs.Program.{IsRuleTold, is_said_alone, rule_message, rule_remark, word_sentence};
ghost use Rattle.static_names.specs.Resolved.{IsNamed, IsRead};
ghost use Rattle.syntax_tree.specs.Placed.{Prog as SpecProg, placed};
ghost use Rattle.syntax_tree.specs.declared.place.Place.{Place as SpecPlace};

use crate::messages::{begun, word_message, word_sentence};
use crate::notes::{add_remark, remark};
use crate::place_words::bytes_at;
use crate::said::said;
use front_end::{SourceFault, one_tree, read_tree};
use out_of_memory::OutOfMemory;
use static_names::{NameFault, ResolvedProgram, name};
use std::alloc::Global;
use syntax_tree::{Place, Program, Text};

/// The tree of the text, if it has one.
pub(crate) fn tree(alloc: Global, text: &[u8]) -> Result<Option<Program>, OutOfMemory>
    ensures some { IfOk result (λ found. IfSome found (λ g. IsTreeOf text.now (placed g))) }
    ensures none { IfOk result (λ found. found ≡ None →
        (g : SpecProg SpecPlace) → IsTreeOf text.now g → ⊥) }
{
    match read_tree(alloc, text) {
        Ok(tree) => Ok(Some(tree)),
        Err(SourceFault::Memory(error)) => Err(error),
        Err(SourceFault::Fault { .. }) => Ok(None),
    }
}

/// The program with its names, if no rule for names fails.
fn resolved(alloc: Global, tree: Program) -> Result<Option<ResolvedProgram>, OutOfMemory>
    requires read { IsRead (placed tree) }
    ensures some { IfOk result (λ found. IfSome found (λ program. program ≡ tree)) }
    ensures none { IfOk result (λ found. found ≡ None → IsNamed (placed tree) → ⊥) }
{
    match name(alloc, tree) {
        Ok(program) => Ok(Some(program)),
        Err(NameFault::Memory(error)) => Err(error),
        Err(NameFault::Rule { .. }) => Ok(None),
    }
}

/// The program of the text with its names, if it has a tree and no rule for names fails.
fn program(alloc: Global, text: &[u8]) -> Result<Option<ResolvedProgram>, OutOfMemory>
    ensures some { IfOk result (λ found. IfSome found (λ program. IsTreeOf text.now (placed program))) }
    ensures none { IfOk result (λ found. found ≡ None →
        (g : SpecProg SpecPlace) → IsTreeOf text.now g → IsNamed g → ⊥) }
{
    one_tree();
    let Some(tree) = tree(alloc, text)? else {
        return Ok(None);
    };
    resolved(alloc, tree)
}

/// Whether the note of the rule is left out where the sentence has names.
fn is_said_alone(number: u8) -> bool
    ensures { result ≡ is_said_alone number }
{
    matches!(number, 34 | 38)
}

/// What can be done, where there is this sentence.
fn rule_remark(number: u8, said: &Option<Text>, bytes: &[u8]) -> &'static str
    ensures { result.now ≡ rule_remark number said.now bytes.now }
{
    if is_said_alone(number) && said.is_some() {
        return "";
    }
    remark(number, bytes)
}

/// The sentence that there is, else that by the word at the place alone.
fn sentence_of(
    alloc: Global,
    text: &[u8],
    number: u8,
    place: Place,
    said: Option<Text>,
) -> Result<Text, OutOfMemory>
    ensures { IfOk result (λ sentence. sentence ≡
        unwrap_or said (word_sentence text.now number place)) }
{
    match said {
        Some(sentence) => Ok(sentence),
        None => word_sentence(alloc, text, number, place),
    }
}

/// The message with this sentence, if there is one.
fn with_sentence(
    alloc: Global,
    file: &[u8],
    text: &[u8],
    number: u8,
    place: Place,
    said: Option<Text>,
) -> Result<Text, OutOfMemory>
    ensures { IfOk result (λ message. message ≡ rule_message file.now text.now number place said) }
{
    let remark = rule_remark(number, &said, bytes_at(text, place));
    let sentence = sentence_of(alloc, text, number, place, said)?;
    let mut message = begun(alloc, file, text, number, place, sentence.as_bytes())?;
    add_remark(&mut message, remark)?;
    Ok(message)
}

/// The message for a text whose program fails a static rule of this number at the place, which is
/// none for names.
pub(crate) fn rule_message(
    alloc: Global,
    file: &[u8],
    text: &[u8],
    number: u8,
    place: Place,
) -> Result<Text, OutOfMemory>
    ensures { IfOk result (λ message. (g : SpecProg SpecPlace) → IsTreeOf text.now g → IsNamed g →
        IsRuleTold file.now text.now number place g message) }
{
    one_tree();
    let Some(program) = program(alloc, text)? else {
        return word_message(alloc, file, text, number, place);
    };
    let said = said(alloc, &program, number, place)?;
    with_sentence(alloc, file, text, number, place, said)
}
