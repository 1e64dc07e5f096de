// The map of the workspace: its numbers as one value, definitions (specs/), and what is proved about them (proofs/).
#![tactic(auto)]

pub mod layout;
