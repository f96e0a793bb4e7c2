//! The laws.

ghost use Rattle.command_words.specs.WordsLaws.{NoCommandIsALoad, OverheadsAreDecimal, WordsAreOneCommand, WordsAreOneLoad};

/// The same words are no two commands.
pub fn one_command()
    ensures { WordsAreOneCommand }
{}

/// The same words are no two loads.
pub fn one_load()
    ensures { WordsAreOneLoad }
{}

/// No words are a command and a load.
pub fn no_command_is_a_load()
    ensures { NoCommandIsALoad }
{}

/// A word gives an overhead exactly where it is the decimal text of a number from 0 to 1000.
pub fn overheads_are_decimal()
    ensures { OverheadsAreDecimal }
{}
