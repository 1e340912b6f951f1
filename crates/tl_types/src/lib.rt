//! Values of a schema's types, and the bytes that spell them.
#![tactic(auto)]

mod cause;
mod closing;
mod conditions;
mod fitting;
mod laws;
mod misfit;
mod nodes;
mod parts;
mod value;

pub use cause::Cause;
pub use closing::close;
pub use conditions::stands;
pub use fitting::{bit_of, fits};
pub use laws::{each_input_is_spelled_or_refused, each_value_fits_or_is_a_misfit};
pub use misfit::{FitFault, Misfit, MisfitCause};
pub use nodes::{is_called, node_misfit};
pub use parts::{arguments_of, is_absent, item_of, slots_of};
pub use tl_schema::{
    CheckCause, CheckFault, Entry, Schema, SchemaField, TypeCause, TypeFault, TypeForm, TypeRef,
    check, form_of, type_of,
};
pub use value::{MAX_LEVELS, Value};
