//! What the definitions promise of lists and of the words of actions.
ghost use Rattle.list_text.specs.Laws.{ActionsAreSpelled, KnownTexts, ListsAreGrammar, NumbersAreSmall, RefusalsAreFirst, TextsAreLines};

/// The lines of a text are those that make it up.
pub fn texts_are_lines()
    ensures { TextsAreLines }
{}

/// A text is a list exactly where each of its lines spells a number, these ascend, and they are no more than the
/// limit.
pub fn lists_are_grammar()
    ensures { ListsAreGrammar }
{}

/// A text is refused exactly as its first refused line breaks a rule: the lines before that one are a list.
pub fn refusals_are_first()
    ensures { RefusalsAreFirst }
{}

/// The numbers of a list have 32 bits.
pub fn numbers_are_small()
    ensures { NumbersAreSmall }
{}

/// The lists of a few texts, by the definitions alone.
pub fn known_texts()
    ensures { KnownTexts }
{}

/// A word names an action exactly where that action can be asked for and the word is its word.
pub fn actions_are_spelled()
    ensures { ActionsAreSpelled }
{}
