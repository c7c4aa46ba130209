//! Names of the domain name system (RFC 1035 2.3.4, 3.1), and octets that contracts see as a list.
#![tactic(auto)]

pub mod bounds;
mod fault;
mod laws;
mod name;
mod octets;
mod text;

pub use fault::NameFault;
pub use laws::one_name;
pub use name::{Name, is_lower, suffix_in};
pub use octets::Octets;
