//! Rows of text over the public calls of a site, of its server and of a fleet.
//!
//! `messages` has messages and frames by their names, and `octets` reads them. `sites` reads what
//! rows name, and `fleets` reads rows, does what they say and compares their output. `heaps` fills a
//! heap. Each other file has tests: of the calls of a site; of a hit without memory; of turns of a
//! server over a port in memory; of events that are halted. The tests below `refused` have an
//! allocator that refuses a call (`refusing`), those below `layers` are of the libraries below a
//! site, and those below `program` of the script and the socket of the program.
//!
//! What a script shows of these is tried from outside, by `tests/run` at the top of the repository.

mod bursts;
mod calls;
mod events;
mod fleets;
mod heaps;
mod hits;
mod layers;
mod messages;
mod octets;
mod program;
mod refused;
mod refusing;
mod sites;
mod turns;
