//! Rows of text over the public calls of the libraries below a site.
//!
//! `messages` has the octets that more than one row is about, by their names. `rows`, `tables`,
//! `calls` and `observations` read rows, make their calls and compare their output. Each other file
//! has tests: of names and octets; of lists of items; of messages that servers sent (`captures`) and
//! that are read in place; of replies and queries; of observations that are made (`bodies` has
//! those after other octets); of fronts; of caches and the memory that purges give back; of frames
//! that are taken; of open questions.
//!
//! What a script shows of these is tried from outside, by `tests/run` at the top of the repository.

mod bodies;
mod caches;
mod calls;
mod captures;
mod fronts;
mod in_place;
mod items;
mod made;
mod messages;
mod names;
mod observations;
mod purges;
mod questions;
mod reclaims;
mod replies;
mod rows;
mod tables;
mod taken;
