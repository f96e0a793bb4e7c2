//! How what is told of names agrees with the rules for names. These functions do nothing; their
//! contracts are the laws.

ghost use Rattle.message_names.specs.Laws.{ListsEachName, TellsOfClosing, TellsOfDeclarations, TellsOfFailures, TellsOfNames, TellsOfUses};

use syntax::tokens_in_order;

/// The names that are told are those of the rules, by their places. So there is a sentence exactly
/// where a name stands, and wherever one of the rules fails.
pub fn told_where_rules_fail()
    ensures places { ListsEachName }
    ensures names { TellsOfNames }
    ensures failures { TellsOfFailures }
{}

/// In a tree that is read, what is told of a closing name names the one that it has to repeat.
pub fn closing_names_are_told()
    ensures { TellsOfClosing }
{
    tokens_in_order();
}

/// In a tree that is read, a name that is used with no full stop before it means the declaration
/// that the rules say it means, and none exactly where they say none.
pub fn uses_are_told()
    ensures { TellsOfUses }
{
    tokens_in_order();
}

/// In a tree that is read, another declaration of a name that is declared is found in reach exactly
/// where the rules say that the name is taken.
pub fn declarations_are_told()
    ensures { TellsOfDeclarations }
{
    tokens_in_order();
}
