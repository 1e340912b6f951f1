//! Layers: whether a new schema still reads the bytes of an old one.
#![tactic(auto)]

mod comparing;
mod fault;
mod field_breaks;
mod fields;
mod images;
mod laws;
mod layers;
mod lifting;
mod moved;
mod naming;
mod pairs;

pub use comparing::compare;
pub use fault::{Break, LayerFault};
pub use laws::{
    each_is_unbroken_or_breaks, images_are_formed, lifting_keeps_depth, old_bytes_are_read,
};
pub use layers::Layers;
