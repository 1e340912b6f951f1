//! tlbox for C: one handle, which is one pointer in the caller's storage, null where nothing is open.
#![tactic(auto)]

mod exports;
mod handle;
mod held;
mod loose;
mod serving;
mod telling;
