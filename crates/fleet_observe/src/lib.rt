//! What replies mean: the walk along aliases, how it ends, and observations of names, their order,
//! and the octets of their bodies.
#![tactic(auto)]

pub mod bounds;
mod items;
mod laws;
mod observation;
pub mod rank;
mod reply;

pub use bounds::{LONGEST_BODY, LONGEST_DENIAL, LONGEST_LIFE};
pub use items::Items;
pub use laws::{digest_or_fault, each_once, one_digest, one_key, one_lent, one_walk};
pub use observation::Observation;
pub use observation::fault::ObservationFault;
pub use observation::kind::Kind;
pub use observation::lent::LentObservation;
pub use observation::moment::Moment;
pub use observation::order::preference_laws;
pub use observation::soa::Soa;
pub use observation::values::{is_count_of, is_data_type, is_life_of, is_rank_of, is_type_of};
pub use reply::digest;
pub use reply::ending::{DigestFault, End};
pub use reply::lent_rrset::{LentRrSet, add_rrset};
pub use reply::observations::observations;
pub use reply::relay::relay;
pub use reply::rrset::RrSet;
pub use reply::summary::Digest;
