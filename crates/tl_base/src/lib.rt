//! Lists of bytes, sources, sinks, links and packets, and the outside of a program.
#![tactic(auto)]

mod counts;
mod fault;
mod host;
mod limited;
mod link;
mod mem_contents;
mod mem_host;
mod mem_lists;
mod mem_script;
mod mem_shown;
mod mem_sink;
mod mem_source;
mod packet;
mod pieces;
mod sink;
mod slices;
mod source;

pub use counts::{Counts, Kind};
pub use fault::{Failed, Fault, Memory};
pub use host::{Host, Out, Slot};
pub use limited::Limited;
pub use link::Link;
pub use mem_host::MemHost;
pub use mem_script::HostCall;
pub use mem_sink::MemSink;
pub use mem_source::MemSource;
pub use packet::{PACKET_BYTES, PacketCause, PacketFault, read_packet, write_packet};
pub use sink::{Sink, WriteFault, write_all};
pub use slices::SliceSource;
pub use source::{Source, TakeFault, TextFault, take_bytes, take_end, take_text, take_word};
pub use tl_numbers::{
    BOXED_VECTOR, Bytes, PACKED, bytes_of_i32, bytes_of_u32, i32_of, numbers_and_bytes, u32_of,
};
