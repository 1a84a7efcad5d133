//! The order of writers: in which orders instances may run over one memory, and what they then leave.
//!
//! Promise: in a world of instances that may write and read words (`specs/World.antt`), any order that keeps what
//! comes before leaves the memory of the serial order, and each instance lives in it as there. While some are done and
//! some under way, no word that one of the latter may write may be read by another, and a word has the value that its
//! last done writer left (`specs/Laws.antt`). The serial run of a program whose map has no clash is such a world, so
//! its instances may run in any order that the dependencies allow (`specs/ProgramLaws.antt`); and its tasks are a graph
//! in which bits of ends and of dependencies tell outcomes and decisions (`specs/TaskGraph.antt`).
//! A world knows nothing of harts, texts or regions: what an instance does over a memory is data of it.
//! Stands on `plural_serial` (the serial run), `plural_reach` (what comes before) and `plural_crew` (no clash).
#![tactic(auto)]

pub mod laws;
