// Rows of a page composed into a lent buffer, and lent rows checked byte by byte.
#![tactic(auto)]

pub mod checking;
pub mod image_exporter;
