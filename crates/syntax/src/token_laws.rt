//! Laws of the tokens of a text. These functions do nothing; their contracts are the laws.

ghost use Rattle.syntax.specs.Lex.{HasOneList, HasTokensOrFault, HasOneFault, TokensStandInOrder};

/// A text has at most one list of tokens.
pub fn one_list()
    ensures { HasOneList }
{}

/// A text has either tokens or a fault, and at most one fault.
pub fn one_fault()
    ensures apart { HasTokensOrFault }
    ensures one { HasOneFault }
{}

/// Each token of a text stands in it, and they stand one after another.
pub fn tokens_in_order()
    ensures { TokensStandInOrder }
{}
