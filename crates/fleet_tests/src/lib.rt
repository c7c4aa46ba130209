//! Tests of the libraries: of the layers below a site, of a site, of the turns of its server, of a
//! fleet, and of what the program does.
#![tactic(auto)]

#[cfg(test)]
mod tests;
