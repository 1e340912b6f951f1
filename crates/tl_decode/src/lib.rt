//! Values from bytes, for every type of a schema.
#![tactic(auto)]

mod decoder;
mod endings;
mod fault;
mod feeding;
mod held_items;
mod items;
mod laws;
mod machine;
mod members;
mod numbers;
mod opening;
mod parts;
mod piecewise;
mod plain;
mod planned;
mod stack;
mod taking;
mod texts;
mod walk;
mod whole;
mod whole_bytes;

pub use endings::{decode_or_end, takes_four};
pub use fault::DecodeFault;
pub use laws::{
    decoding_is_exact, each_item_takes_four, each_refusal_stays, each_size_is_bounded,
    each_text_allows_the_bound,
};
pub use piecewise::Decoder;
pub use planned::decode;
pub use stack::Fed;
pub use tl_types::MAX_LEVELS;
pub use walk::decode_walk;
pub use whole::{WholeCause, WholeFault, decode_whole};
pub use whole_bytes::{decode_bytes, decode_bytes_as};
