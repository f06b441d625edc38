//! What holds of the definitions of words and tokens for every text. The functions do nothing; their contracts are
//! the laws.

ghost use Rattle.hush_words.specs.Laws.{TokensAreRead, OneTokenList, FrontIsRead, PlainIsTold, NameIsTold, AssignmentIsTold};

/// The tokens that are read from a text are exactly those that it has.
pub fn tokens_are_read()
    ensures { TokensAreRead }
{}

/// A text has at most one list of tokens.
pub fn one_token_list()
    ensures { OneTokenList }
{}

/// The tokens that are read before a fault are those of the lexemes at the front of the text, up to where
/// no lexeme can be.
pub fn front_is_read()
    ensures { FrontIsRead }
{}

/// `is_plain` tells exactly the words that are a text in unquoted plain bytes alone.
pub fn plain_is_told()
    ensures { PlainIsTold }
{}

/// `name_of` gives exactly the name that a word is.
pub fn name_is_told()
    ensures { NameIsTold }
{}

/// `assignment_of` gives exactly the name and the value that a word assigns.
pub fn assignment_is_told()
    ensures { AssignmentIsTold }
{}
