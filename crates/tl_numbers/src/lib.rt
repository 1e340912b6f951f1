//! Lists of bytes, and numbers: in bytes, as hexadecimal text, and as the CRC32 of a text.
#![tactic(auto)]

mod bytes;
mod crc;
mod law;
mod numbers;
mod printing;
mod reading;

pub use bytes::Bytes;
pub use crc::crc32;
pub use law::{a_text_has_one_crc, numbers_are_read_back};
pub use numbers::{
    BOXED_VECTOR, PACKED, bytes_of_i32, bytes_of_u32, i32_of, numbers_and_bytes, u32_of,
};
pub use printing::print_hex;
pub use reading::read_hex;
