// Composing: the page's background, and over it the zones of its images.
#![tactic(auto)]

pub mod background;
pub mod painting;
