//! Frames: observations as octets, as sites send them to each other.
//!
//! A frame has the octets 44 47 (hex), a version of one octet, 1 or 2, a count of two octets, that
//! many entries, and nothing after them; at most `LONGEST_FRAME` octets. An entry has a kind of one
//! octet (1 name error, 2 no data, 3 positive, and in version 2 also 4 flush), a rank of one octet,
//! a stamp of eight octets and a life of four, both in seconds, a name, a type of two octets and a
//! body, which is empty for a flush. All numbers are big-endian; names are in full and in lower
//! case (RFC 1035 3.1). Both versions are read; only version 2 is written.
#![tactic(auto)]

mod body;
pub mod bounds;
mod entry;
mod fault;
mod frame;
mod head;
mod known;
mod laws;
mod name;
mod packer;
mod reader;
mod take;
mod writer;

pub use fault::FrameFault;
pub use frame::{OLDEST_VERSION, VERSION, decode, encode};
pub use laws::{entry_fits, list_or_fault, one_fault, one_list, one_packing, one_spelling};
pub use packer::{pack, sweep};
pub use take::{TakeFault, take_frame};
