// What ask, offer and withdraw answer, and what the placing rule is told: types alone. Their meaning is in specs/, what follows from it in proofs/.
#![tactic(auto)]

pub mod multi_texture_packer;
pub mod placing;
