// The standing records placed again by the placing rule, with which ask, offer and withdraw begin; and canvas, cells and records as the code makes them.
#![tactic(auto)]

pub mod placing;
mod replaying;
pub mod trust;
