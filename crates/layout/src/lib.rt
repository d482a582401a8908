// The layout's operations that place: ask, offer and withdraw.
#![tactic(auto)]

pub mod multi_texture_packer;
