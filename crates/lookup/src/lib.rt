// What stands on a page: the pixel at any column and row, and the rows of an image in its store.
#![tactic(auto)]

pub mod image_row;
pub mod texture_packer;
