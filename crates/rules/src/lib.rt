#![tactic(auto)]

// Document 01 as definitions (specs/) and what is proved about them (proofs/). No code.
