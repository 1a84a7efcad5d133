//! Tests of what no row of `plural_rows` shows: what isn't reached from a command line, sources and sinks that fail,
//! bytes that a row can't spell, and inputs that are too long for a row.
//!
//! A file has the name of the crate that it tests, but for those on the public call: `cut` tries it over inputs that
//! end too early, `gates` under gates that hold instances, `limits` over inputs at their limits, `orders` in drawn
//! orders, `outside` over sources and sinks that fail. `adapters` has
//! readers and writers for the sources and sinks of `plural_bytes`, `told` a bus and a port that tell the store to
//! come. `trial` is what the tests share.
//!
//! Promise: nothing but tests. They stand in one crate, since a crate with tests is proved twice, and since a program
//! of tests begins with a check of all that it stands on.
#![tactic(auto)]

#[cfg(test)]
mod adapters;
#[cfg(test)]
mod alloc;
#[cfg(test)]
mod bytes;
#[cfg(test)]
mod cache;
#[cfg(test)]
mod cores;
#[cfg(test)]
mod cut;
#[cfg(test)]
mod gates;
#[cfg(test)]
mod generator;
#[cfg(test)]
mod limits;
#[cfg(test)]
mod machine;
#[cfg(test)]
mod map;
#[cfg(test)]
mod orders;
#[cfg(test)]
mod output;
#[cfg(test)]
mod outside;
#[cfg(test)]
mod reach;
#[cfg(test)]
mod regions;
#[cfg(test)]
mod told;
#[cfg(test)]
mod trial;
