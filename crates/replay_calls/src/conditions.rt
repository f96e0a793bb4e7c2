//! The conditions of a program by number.

ghost use Rattle.std.specs.Prelude.{◌≡◌, ◌≤◌, ◌+◌, ◌-◌, ◌++◌, ◌∷◌, IfOk, List, OnOk, drop, filter_map, length, map, take};
ghost use Rattle.syntax_tree.specs.Plain.{Declaration as SpecDecl, Member as SpecMember};
ghost use Rattle.syntax_tree.specs.Placed.{placed, placed_decl, placed_member, plain, plain_decl, plain_member};
ghost use Rattle.source_semantics.specs.Names.{condition_in, condition_number, monitor_in, place_of};
ghost use Rattle.replay_calls.specs.Conditions.{conditions_in, spans_from};

use crate::equal;
use out_of_memory::OutOfMemory;
use static_declarations::Declarations;
use std::alloc::Global;
use std::marker::Model;
use syntax_tree::{Declaration, Member, Name};

/// Where the conditions of a monitor stand among all: from a place on, up to before another.
#[derive(Clone, Copy)]
struct Span {
    start: usize,
    end: usize,
}

/// The declarations of a program and the conditions of its monitors, which are numbered through all
/// monitors in the order of the text.
#[derive(Drop)]
pub struct NumberedConditions<'a> {
    declarations: &'a Declarations<'a>,
    names: Vec<&'a Name>,
    spans: Vec<Span>,
}

impl<'a> Model for NumberedConditions<'a> {
    ghost use Rattle.std.specs.Prelude.{map};
    ghost use Rattle.std.specs.Coded.{codes};
    ghost use Rattle.syntax_tree.specs.Placed.{placed, plain};
    ghost use Rattle.syntax_tree.specs.declared.decl.Program.{Program as Tree};
    ghost use Rattle.syntax_tree.specs.contracts.decl.Program as tree;
    ghost use Rattle.replay_calls.specs.Conditions.{AreNumbered};

    ghost Value = { Tree };

    ghost coded = { Prim.hlevel (codes, tree.the_row.coded) };

    ghost view = { λ c. c.declarations.now };

    ghost invariant = { λ c. AreNumbered (plain (placed c.declarations.now))
        (map (λ n. n.now) c.names.items) (map (λ s. (s.start, s.end)) c.spans.items) };
}

/// The place of a name among these.
fn place_among(name: &Name, names: &[&Name]) -> usize
    ensures place { result ≡ place_of name.now (map (λ n. n.now) names.now) }
    ensures within { result ≤ length names.now }
{
    let mut place = 0;
    for own in names {
        if equal(own, name) {
            return place;
        }
        place += 1;
    }
    place
}

/// The number of a name among those of a span of these, the first of all being 0.
fn place_in(name: &Name, names: &[&Name], span: Span) -> usize
    requires start { span.start ≤ span.end }
    requires end { span.end ≤ length names.now }
    ensures { result ≡ span.start + place_of name.now
        (take (span.end - span.start) (drop span.start (map (λ n. n.now) names.now))) }
{
    span.start + place_among(name, &names[span.start..span.end])
}

/// Adds the name of the condition that the member is, if it is one.
fn add_name<'a>(names: &mut Vec<&'a Name>, member: &'a Member) -> Result<(), OutOfMemory>
    ensures { OnOk result ((rest : List SpecMember) → map (λ n. n.now) names.new.items ++
        filter_map condition_in rest ≡ map (λ n. n.now) names.old.items ++
        filter_map condition_in (plain_member (placed_member member.now) ∷ rest)) }
{
    if let Member::Condition { name, .. } = member {
        names.push(name)?;
    }
    Ok(())
}

/// Adds the names of the conditions of a monitor.
fn add_names<'a>(names: &mut Vec<&'a Name>, members: &'a [Member]) -> Result<(), OutOfMemory>
    ensures { OnOk result (map (λ n. n.now) names.new.items ≡ map (λ n. n.now) names.old.items ++
        filter_map condition_in (map plain_member (map placed_member members.now))) }
{
    for member in members {
        add_name(names, member)?;
    }
    Ok(())
}

/// Adds the conditions of the monitor that a declaration declares, if it does.
fn add_monitor<'a>(
    names: &mut Vec<&'a Name>,
    spans: &mut Vec<Span>,
    decl: &'a Declaration,
) -> Result<(), OutOfMemory>
    ensures names { OnOk result ((rest : List SpecDecl) → map (λ n. n.now) names.new.items ++
        conditions_in (filter_map monitor_in rest) ≡ map (λ n. n.now) names.old.items ++
        conditions_in (filter_map monitor_in (plain_decl (placed_decl decl.now) ∷ rest))) }
    ensures spans { OnOk result ((rest : List SpecDecl) →
        map (λ s. (s.start, s.end)) spans.new.items ++
        spans_from (length names.new.items) (filter_map monitor_in rest) ≡
        map (λ s. (s.start, s.end)) spans.old.items ++ spans_from (length names.old.items)
        (filter_map monitor_in (plain_decl (placed_decl decl.now) ∷ rest))) }
{
    if let Declaration::Monitor(monitor) = decl {
        let start = names.len();
        add_names(names, monitor.members.as_slice())?;
        let end = names.len();
        spans.push(Span { start, end })?;
    }
    Ok(())
}

impl<'a> NumberedConditions<'a> {
    /// Numbers the conditions of a program.
    pub fn new(
        alloc: Global,
        declarations: &'a Declarations<'a>,
    ) -> Result<NumberedConditions<'a>, OutOfMemory>
        ensures { IfOk result (λ c. c ≡ declarations.now) }
    {
        let decls = declarations.program().decls.as_slice();
        let mut names = Vec::new(alloc);
        let mut spans = Vec::new(alloc);
        for decl in decls {
            add_monitor(&mut names, &mut spans, decl)?;
        }
        Ok(NumberedConditions {
            declarations,
            names,
            spans,
        })
    }

    pub fn declarations(&self) -> &'a Declarations<'a>
        ensures { result.now ≡ self.now }
    {
        self.declarations
    }

    /// The number of the condition of that name of a monitor.
    pub fn number(&self, mon: usize, name: &Name) -> usize
        ensures { result ≡ condition_number (plain (placed self.now)) mon name.now }
    {
        match self.spans.get(mon) {
            None => self.names.len(),
            Some(span) => place_in(name, self.names.as_slice(), *span),
        }
    }
}
