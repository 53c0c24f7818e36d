//! Tests of the libraries' public calls, for what no clause says and no table of whole calls shows.
//!
//! They stand in a crate of their own, since a crate is proved once more with its tests.
#![tactic(auto)]

#[cfg(test)]
mod generating;
#[cfg(test)]
mod growing;
#[cfg(test)]
mod heaps;
#[cfg(test)]
mod open_areas;
#[cfg(test)]
mod outside;
