// What a layout holds: a configuration, and a record for each standing image.
#![tactic(auto)]

pub mod frame;
pub mod layout;
pub mod refusal;
pub mod texture_packer_config;
