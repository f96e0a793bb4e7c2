//! Whole trees as their bytes.

ghost use Rattle.std.specs.Prelude.{◌≡◌, IfOk, true};
ghost use Rattle.image_format.specs.View.{views};
ghost use Rattle.image_format.specs.Gives.{Gives};
ghost use Rattle.image_format.specs.TreeBytes.{RowsFit, tree_bytes};
ghost use Rattle.image_format.specs.TreeFormat.{tree_format, within_limits};
ghost use Rattle.image_format.specs.Stands.{tree_in};
ghost use Rattle.image_format.specs.Whole.{any_tree, deepest_kept};

use crate::bytes::are_bytes;
use crate::put_trees::put_tree;
use crate::reading::tree_at;
use crate::segs::tree_at as segs_at;
use crate::view::SegBytes;
use crate::{Limits, ReadError, Seg, Segs};
use out_of_memory::OutOfMemory;
use std::alloc::Global;
use std::marker::Model;

/// How deep a tree that is kept may nest: 2^62 levels, each of four bytes, are more than there is
/// room for.
pub const DEEPEST_KEPT: u64 = 4_611_686_018_427_387_904;

/// A segment tree, kept as the bytes that an image has of it. Contracts see it as the tree.
#[derive(Drop)]
pub struct SegTree {
    bytes: Vec<u8>,
}

impl Model for SegTree {
    ghost use Rattle.machine_semantics.specs.Trees.{Segs};
    ghost use Rattle.image_format.specs.TreeCode.{coded_segs};
    ghost use Rattle.image_format.specs.Whole.{IsTree, deepest_kept, tree_of};

    ghost Value = { Segs };

    ghost coded = { coded_segs };

    ghost view = { λ t. tree_of deepest_kept t.bytes.items };

    ghost invariant = { λ t. IsTree deepest_kept t.bytes.items };
}

/// The bytes once more. An error says that memory is short.
fn copy_of(alloc: Global, bytes: &[u8]) -> Result<Vec<u8>, OutOfMemory>
    ensures items { IfOk result (λ copy. copy.items ≡ bytes.now) }
{
    Ok(Vec::from_slice(alloc, bytes)?)
}

impl SegTree {
    /// The tree of these segments. An error says that memory is short.
    pub fn of(alloc: Global, segs: &[Seg]) -> Result<SegTree, OutOfMemory>
        requires { RowsFit (views segs.now) }
        ensures { IfOk result (λ tree. tree ≡ views segs.now) }
    {
        let mut bytes = Vec::new(alloc);
        put_tree(&mut bytes, DEEPEST_KEPT, segs)?;
        Ok(SegTree { bytes })
    }

    /// The tree that the bytes begin with, and the bytes after it; or the fault of the first field
    /// that is none of a tree's. Its numbers are within the limits, and it nests at most so deep.
    pub fn read(
        alloc: Global,
        limits: Limits,
        depth: u32,
        bytes: &[u8],
    ) -> Result<(SegTree, &[u8]), ReadError>
        ensures { Gives (λ x. (x.0, x.1.now)) result
            ((tree_format (within_limits limits) depth).read bytes.now) }
    {
        let (_view, rest) = tree_at(limits, u64::from(depth), bytes)?;
        are_bytes(bytes);
        let taken = &bytes[..bytes.len() - rest.len()];
        let bytes = copy_of(alloc, taken)?;
        Ok((SegTree { bytes }, rest))
    }

    /// The tree once more. An error says that memory is short.
    pub fn copied(&self, alloc: Global) -> Result<SegTree, OutOfMemory>
        ensures { IfOk result (λ tree. tree ≡ self.now) }
    {
        let bytes = copy_of(alloc, self.bytes.as_slice())?;
        Ok(SegTree { bytes })
    }

    /// Its bytes, as an image has them.
    pub fn bytes(&self) -> &[u8]
        ensures { result.now ≡ tree_bytes self.now }
    {
        self.bytes.as_slice()
    }

    /// Its numbers fit their fields, and it nests no deeper than a kept tree may, so that its bytes
    /// are read again. The call does nothing.
    pub fn can_be_read(&self)
        ensures { (any_tree deepest_kept).is self.now ≡ true }
    {
        are_bytes(self.bytes.as_slice());
    }

    /// A view of it, which takes no memory.
    pub fn view(&self) -> SegBytes<'_>
        ensures { tree_in result ≡ self.now }
    {
        match tree_at(Limits::widest(), DEEPEST_KEPT, self.bytes.as_slice()) {
            Ok((view, _)) => view,
            Err(_) => unreachable!(),
        }
    }

    /// Its segments, each apart. An error says that memory is short.
    pub fn segs(&self, alloc: Global) -> Result<Segs, OutOfMemory>
        ensures { IfOk result (λ segs. views segs ≡ self.now) }
    {
        match segs_at(alloc, Limits::widest(), DEEPEST_KEPT, self.bytes.as_slice()) {
            Ok((segs, _)) => Ok(segs),
            Err(ReadError::Memory(error)) => Err(error),
            Err(ReadError::Fault(_)) => unreachable!(),
        }
    }
}
