//! The symbols of the grammar, as they stand on the stack of the automaton.

/// What may still come of a program.
#[derive(Clone, Copy)]
pub(crate) enum Symbol {
    /// A name.
    Name,
    /// This keyword.
    Keyword { at: u8 },
    /// This sign.
    Sign { at: u8 },
    /// Any number of declarations.
    Declarations,
    /// A procedure, behind its keyword.
    Procedure,
    /// A function, behind its keyword.
    Function,
    /// A procedure or a function.
    Routine,
    /// Any number of routines.
    Routines,
    /// Any number of entries.
    Entries,
    /// Any number of variables and conditions of a monitor.
    Members,
    /// Any number of variables.
    Variables,
    /// The type of a variable.
    VariableType,
    /// A type that is no array.
    Scalar,
    /// A constant.
    Constant,
    /// A constant behind its minus.
    Unsigned,
    /// Parameters, and their closing parenthesis.
    FirstParameter,
    /// More parameters, each behind a comma.
    MoreParameters,
    /// More numbers of a handler, each behind a comma.
    MoreNumbers,
    /// What activates a process.
    Activation,
    /// The deadline of a process, if it has one.
    Deadline,
    /// The first activation of a process, if it has one.
    First,
    /// The handler of a process, if it has one.
    Handler,
    /// The way of a device.
    Way,
    /// Any number of statements.
    Statements,
    /// A statement, behind the name that begins it.
    NamedStatement,
    /// The end of a branch, with its other statements, if any.
    Else,
    /// The index of a reference, if it has one.
    Index,
    /// What is assigned.
    Assigned,
    /// What is assigned, behind the name that begins it.
    AssignedName,
    /// An expression.
    Expression,
    /// A factor.
    Factor,
    /// The index or the arguments of a factor, if it has any.
    NamedFactor,
    /// Arguments in parentheses.
    Arguments,
    /// Arguments, and their closing parenthesis.
    FirstArgument,
    /// More arguments, each behind a comma.
    MoreArguments,
    /// Any number of operators of this level with their operands; one comparison at most.
    Operators { level: u8 },
    /// The end of a level of nesting: behind it so many are left.
    Leave { levels: u8 },
}

/// How a symbol begins with a word.
#[derive(Clone, Copy)]
pub(crate) enum Head {
    /// Not at all.
    Refused,
    /// It goes on with these.
    Along { symbols: &'static [Symbol] },
    /// It opens a level of nesting, with these inside it.
    Inside { symbols: &'static [Symbol] },
}

/// How a symbol begins with a word, and what stands behind that.
#[derive(Clone, Copy)]
pub(crate) struct Turn {
    pub(crate) head: Head,
    pub(crate) behind: &'static [Symbol],
}
