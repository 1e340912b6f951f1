//! What holds of each text.
ghost use Rattle.std.specs.Prelude.{◌≤◌, ◌↔◌, ℕ, List, length};
ghost use Rattle.tl_lexer.specs.OneAnswer.{HasOneAnswer};
ghost use Rattle.tl_lexer.specs.Spelled.{SpellsText, HasFault};
ghost use Rattle.tl_lexer.specs.Tokens.{Tokens, LexRefused};
ghost use Rattle.tl_lexer.specs.declared.fault.LexFault.{LexFault};
ghost use Rattle.tl_lexer.specs.declared.token.Token.{Token};

use crate::lexer::TEXT_LIMIT;

/// For each text exactly one holds: it has one list of tokens, or it is refused.
pub fn each_text_has_tokens_or_is_refused()
    ensures { (text : List ℕ) → HasOneAnswer text }
{}

/// The tokens of a text are those that spell it, place by place.
pub fn tokens_spell_their_text()
    ensures { (text : List ℕ) (ts : List Token) → Tokens text ts ↔ ((length text ≤ TEXT_LIMIT) × SpellsText text ts) }
{}

/// A text is refused for the fault that it has, place by place.
pub fn faults_are_the_texts()
    ensures { (text : List ℕ) (fault : LexFault) → LexRefused text fault ↔ HasFault text fault }
{}
