//! The variable that a name means.

ghost use Rattle.std.specs.Prelude.{◌≡◌};
ghost use Rattle.code_layout.specs.LayoutTables.{spot_in};
ghost use Rattle.source_semantics.specs.Run.{or_else};
ghost use Rattle.code_layout.specs.LookupTables.{in_loop, loop_told, outer_in};

use crate::{VarLocations, fit_word};
use codegen_spec::{Area, Loop, VarLocation, VarShape};
use syntax_tree::Name;

/// What a name means inside one more loop: its variable, where that is its name.
fn in_one(spot: Option<VarLocation>, around: &Loop, name: &Name) -> Option<VarLocation>
    ensures { result ≡ in_loop spot around.now name.now }
{
    if around.name == *name {
        Some(VarLocation {
            area: Area::Frame,
            word: fit_word(around.word),
            shape: VarShape::Single,
            range: None,
        })
    } else {
        spot
    }
}

/// What a name means inside loops, the outermost first, where it is known what it means outside.
pub fn in_loops(spot: Option<VarLocation>, loops: &[Loop], name: &Name) -> Option<VarLocation>
    ensures { result ≡ loop_told spot loops.now name.now }
{
    let mut means = spot;
    for around in loops {
        means = in_one(means, around, name);
    }
    means
}

/// The variable that a name means: that of the innermost loop of that name, else one of the frame,
/// else one of the process or monitor whose text it is.
pub fn variable(
    own: &VarLocations<'_>,
    outer: Option<&VarLocations<'_>>,
    loops: &[Loop],
    name: &Name,
) -> Option<VarLocation>
    ensures { result ≡ loop_told (or_else (spot_in own.now name.now)
        (outer_in outer.entry name.now)) loops.now name.now }
{
    let outside = match own.find(name) {
        Some(spot) => Some(spot),
        None => match outer {
            Some(spots) => spots.find(name),
            None => None,
        },
    };
    in_loops(outside, loops, name)
}
