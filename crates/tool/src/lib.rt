// What the programs `pack` and `verify` do: a job laid out, and its pages written or checked.
#![tactic(auto)]

pub mod bands;
pub mod driving;
pub mod files;
pub mod page_files;
pub mod page_folder;
pub mod placing;
pub mod preparing;
mod system;
pub mod telling;
