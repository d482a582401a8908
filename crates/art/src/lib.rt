// The art: pixels that lie in two lent stores, read upright or turned, and trimmed of what cannot be seen.
#![tactic(auto)]

pub mod memory_rgba8_texture;
pub mod sub_texture;
pub mod texture;
pub mod trim;
