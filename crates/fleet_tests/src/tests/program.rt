//! What no user of the program can show: allocations refused in a script and in a port, the bounds of
//! what waits in a port, a clock that is set by hand, and two sites in one process.
//!
//! What a script prints, each fault of a line, words, configurations and sessions over sockets are
//! tried from outside, by `tests/run` at the top of the repository.

mod bursts;
mod loopback;
mod refused;
mod scripts;
