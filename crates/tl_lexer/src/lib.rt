//! The tokens of a text.
#![tactic(auto)]

mod fault;
mod law;
mod lexer;
mod token;

pub use fault::LexFault;
pub use law::{each_text_has_tokens_or_is_refused, faults_are_the_texts, tokens_spell_their_text};
pub use lexer::{TEXT_LIMIT, lex};
pub use token::{Token, TokenKind};
