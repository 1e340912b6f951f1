//! What holds of each list of tokens, and of each list of pieces.
ghost use Rattle.std.specs.Prelude.{ℕ, List};
ghost use Rattle.tl_lexer.specs.declared.token.Token.{Token};
ghost use Rattle.tl_combinators.specs.Sentences.{SyntaxRefused, TypeRefused};
ghost use Rattle.tl_combinators.specs.OneReading.{HasOneProgram, HasOneType, HasOneDescription};
ghost use Rattle.tl_combinators.specs.Description.{Piece};
ghost use Rattle.tl_combinators.specs.declared.fault.SyntaxFault.TheVariants.{Memory};

/// For each text and each list of tokens exactly one holds: the tokens read as one program, or they are refused for one
/// fault, which is never out of memory. The same holds of types.
pub fn each_list_of_tokens_is_read_or_refused()
    ensures programs { (text : List ℕ) (tokens : List Token) → HasOneProgram text tokens }
    ensures types { (text : List ℕ) (tokens : List Token) → HasOneType text tokens }
    ensures causes { (text : List ℕ) (tokens : List Token) → (SyntaxRefused text tokens Memory → ⊥) × (TypeRefused text tokens Memory → ⊥) }
{}

/// Each list of pieces has one description: the kept ones in order, with one space exactly where two of them are apart.
pub fn each_list_of_pieces_has_one_description()
    ensures { (pieces : List Piece) → HasOneDescription pieces }
{}
