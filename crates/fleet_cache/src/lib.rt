//! The cache of a site: the observations that it holds, and its answers.
//!
//! A [`Cache`] stands for the plain set of all observations that it was given, and for a floor, the
//! moment up to which it was purged: it holds those that end after the floor, that no flush withdraws
//! and that no other one dominates. It makes no difference in which order they arrived, how often, or
//! by which calls. Nothing is evicted, so a cache has no bound but memory.
#![tactic(auto)]

mod answer;
mod cache;
mod cut;
mod fronts;
mod held;
mod item;
mod items;
mod laws;
mod lent;
mod lookup;
mod memory;
mod noted;
mod reclaim;
mod round;
mod short;
mod shown;
mod slot;
mod store;
mod words;

pub use answer::{Answer, Chain};
pub use cache::{Cache, Stopped};
pub use cut::Cut;
pub use item::Item;
pub use items::Items;
pub use laws::{
    answers_are_paths, caches_exist, dominance, keys_hold_few, memory_falls, memory_follows,
    merges, one_answer, one_cache, tests_hold, worked_rows,
};
pub use shown::Shown;
