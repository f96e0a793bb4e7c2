//! Laws of the trees, the programs and the faults of texts. These functions do nothing; their
//! contracts are the laws.

ghost use Rattle.front_end.specs.ProgramLaws.{HasOneTree, HasOneProgram, HasProgramOrFault};

use syntax::one_list;

/// A text has at most one tree.
pub fn one_tree()
    ensures { HasOneTree }
{
    syntax_reading::one_tree();
    one_list();
}

/// A text is that of at most one program.
pub fn one_program()
    ensures { HasOneProgram }
{
    one_tree();
}

/// A program text has no fault.
pub fn program_or_fault()
    ensures { HasProgramOrFault }
{
    one_tree();
    one_list();
    syntax::one_fault();
}
