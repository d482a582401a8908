// A page's skyline: the search for the best place for a cell, and the skyline with the cell there.
#![tactic(auto)]

pub mod skyline;
pub mod skyline_packer;
