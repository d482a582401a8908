// Texture coordinates of a standing image.
#![tactic(auto)]

pub mod locate;
