//! Programs as text, and that the text reads as the same program.
#![tactic(auto)]

mod printing;

pub use printing::print;
