//! Law: a text has at most one fault.
//!
//! `specs/OneFault.antt` states it over the faults of `front_end`: its length, its tokens, its
//! grammar and nesting, its names, the static rules.
//!
//! Promised: two faults of a text have one number and one place.

ghost use Rattle.front_end.specs.OneFault.{HasOneFault};

/// Two faults of a text have one number and one place.
pub fn one_fault()
    ensures { HasOneFault }
{
    crate::one_tree();
    syntax::one_list();
    syntax::one_fault();
    syntax_parser::one_opening();
    syntax_parser::one_place();
}
