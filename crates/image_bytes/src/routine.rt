//! Routines.

ghost use Rattle.std.specs.Prelude.{◌≡◌, ◌==◌, IsOk};
ghost use Rattle.image_format.specs.Gives.{GivesOrFault};
ghost use Rattle.image_bytes.specs.Fields.{flag_field, five_fields, owner_fields, routine_fields, tree_fields};
ghost use Rattle.image_bytes.specs.Standing.{IsRead, routine_in};
ghost use Rattle.image_format.specs.Stands.{tree_in};

use crate::reference::RoutineRef;
use image_format::{ByteFault, DEEPEST_KEPT, Limits, SegBytes, tree_at, u8_at, u16_at, u32_at};

impl<'a> RoutineRef<'a> {
    /// The tree of its code.
    pub fn tree(&self) -> SegBytes<'a>
        ensures { tree_in result ≡ (routine_in self.now).tree }
    {
        match kept_tree_at(self.trees) {
            Ok((tree, _)) => tree,
            Err(_) => unreachable!(),
        }
    }
}

/// Whose a routine is, its parameters and locals, and whether it has a result.
#[derive(Clone, Copy)]
struct Owner {
    kind: u8,
    owner: u16,
    params: u16,
    locals: u32,
    result: bool,
}

/// Whether a byte is 1.
fn flag_at(bytes: &[u8]) -> Result<(bool, &[u8]), ByteFault>
    ensures { GivesOrFault (λ x. (x.0, x.1.now)) result (flag_field.read bytes.now) }
{
    let (value, rest) = u8_at(bytes)?;
    Ok((value == 1, rest))
}

fn owner_at(bytes: &[u8]) -> Result<(Owner, &[u8]), ByteFault>
    ensures { GivesOrFault (λ x. (
      (x.0.kind, (x.0.owner, (x.0.params, (x.0.locals, x.0.result)))),
      x.1.now,
    )) result (owner_fields.read bytes.now) }
{
    let (kind, rest) = u8_at(bytes)?;
    let (owner, rest) = u16_at(rest)?;
    let (params, rest) = u16_at(rest)?;
    let (locals, rest) = u32_at(rest)?;
    let (result, rest) = flag_at(rest)?;
    Ok((
        Owner {
            kind,
            owner,
            params,
            locals,
            result,
        },
        rest,
    ))
}

/// Five numbers of four bytes, one after the other.
#[derive(Clone, Copy)]
pub(crate) struct Five {
    pub(crate) first: u32,
    pub(crate) second: u32,
    pub(crate) third: u32,
    pub(crate) fourth: u32,
    pub(crate) fifth: u32,
}

pub(crate) fn five_at(bytes: &[u8]) -> Result<(Five, &[u8]), ByteFault>
    ensures { GivesOrFault (λ x. (
      (x.0.first, (x.0.second, (x.0.third, (x.0.fourth, x.0.fifth)))),
      x.1.now,
    )) result (five_fields.read bytes.now) }
{
    let (first, rest) = u32_at(bytes)?;
    let (second, rest) = u32_at(rest)?;
    let (third, rest) = u32_at(rest)?;
    let (fourth, rest) = u32_at(rest)?;
    let (fifth, rest) = u32_at(rest)?;
    Ok((
        Five {
            first,
            second,
            third,
            fourth,
            fifth,
        },
        rest,
    ))
}

/// A tree whose numbers fit their fields.
pub(crate) fn kept_tree_at(bytes: &[u8]) -> Result<(SegBytes<'_>, &[u8]), ByteFault>
    ensures { GivesOrFault (λ x. (tree_in x.0, x.1.now)) result (tree_fields.read bytes.now) }
{
    tree_at(Limits::widest(), DEEPEST_KEPT, bytes)
}

/// The routine that the bytes begin with. Its tree is not gone over.
pub fn routine_at(bytes: &[u8]) -> RoutineRef<'_>
    requires { IsOk (routine_fields.read bytes.now) }
    ensures { IsRead routine_fields bytes.now (routine_in result) }
{
    let Ok((owner, rest)) = owner_at(bytes) else {
        unreachable!()
    };
    let Ok((cost, trees)) = five_at(rest) else {
        unreachable!()
    };
    RoutineRef {
        kind: owner.kind,
        owner: owner.owner,
        params: owner.params,
        locals: owner.locals,
        result: owner.result,
        start: cost.first,
        run: cost.second,
        susp: cost.third,
        waits: cost.fourth,
        stay: cost.fifth,
        trees,
    }
}
