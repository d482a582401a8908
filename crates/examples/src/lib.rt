// Document 01's examples, computed from the definitions of the crates below: the tables are in specs/, that they hold in proofs/.
#![tactic(auto)]
