//! The segments of a view, from left to right.

ghost use Rattle.std.specs.Prelude.{◌≡◌, ◌≤◌, ◌+◌, MatchOption};
ghost use Rattle.machine_semantics.specs.Trees.{Cons, Nil};
ghost use Rattle.image_format.specs.Items.{items_left, segments_of};
ghost use Rattle.image_format.specs.Stands.{inner_nesting, item_in, nesting, segments_left, tree_in};

use crate::reading::item_at;
use crate::view::{SegBytes, SegItem};

impl<'a> SegBytes<'a> {
    /// The first segment and the segments after it; none where there is none.
    pub fn split_first(self) -> Option<(SegItem<'a>, SegBytes<'a>)>
        ensures tree { MatchOption result (tree_in self.entry ≡ Nil)
            (λ x. tree_in self.entry ≡ Cons (item_in x.0) (tree_in x.1)) }
        ensures nests { MatchOption result (segments_left self.entry ≡ 0)
            (λ x. (inner_nesting x.0 ≤ nesting self.entry) × (nesting x.1 ≡ nesting self.entry) ×
            (segments_left x.1 + 1 ≡ segments_left self.entry)) }
    {
        if self.count == 0 {
            return None;
        }
        match item_at(self.limits, self.depth, self.bytes) {
            Ok((item, bytes)) => {
                let rest = SegBytes {
                    limits: self.limits,
                    depth: self.depth,
                    count: self.count - 1,
                    bytes,
                };
                Some((item, rest))
            }
            Err(_) => unreachable!(),
        }
    }
}

/// The segments of a view, from left to right.
#[derive(Clone, Copy)]
pub struct SegItems<'a> {
    rest: SegBytes<'a>,
}

impl<'a> Iterator for SegItems<'a> {
    ghost use Rattle.std.specs.Iterator.{YieldsFirstBy, item_count};
    ghost use Rattle.image_format.specs.Items.{items_left};
    ghost use Rattle.image_format.specs.Stands.{item_in};

    type Item = SegItem<'a>;

    ghost next_gives = { YieldsFirstBy item_in items_left };

    ghost remaining = { item_count items_left };

    fn next(&mut self) -> Option<SegItem<'a>> {
        let (item, rest) = self.rest.split_first()?;
        self.rest = rest;
        Some(item)
    }
}

impl<'a> SegBytes<'a> {
    /// Its segments, from left to right.
    pub fn items(&self) -> SegItems<'a>
        ensures { items_left result ≡ segments_of (tree_in self.now) }
    {
        SegItems { rest: *self }
    }
}
