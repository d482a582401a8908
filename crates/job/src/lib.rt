// The text of a packing job, as a person writes it: docs/JOB.md.
#![tactic(auto)]

pub mod lines;
pub mod numbers;
pub mod reading;
pub mod values;
pub mod words;
