#![tactic(auto)]
// A feed of lanes: what it answers, and in specs/ what it owes, with demand 3 for each lane; the laws are in proofs/. The lanes stand in `lanes_state`, and the function is that of `lanes`.
mod feeding;

pub use feeding::FedLanes;
