//! Law: the words that may follow, by the tokens.

ghost use Rattle.message_expected.specs.Behind.{FollowsByTokens};

/// A word may stand behind the first tokens of a text exactly where these tokens and then the word
/// begin a program, the limit on nesting left aside, or one of them opens a level beyond the last;
/// unless the text would be too long with it.
pub fn follows_by_tokens()
    ensures { FollowsByTokens }
{}
