// Leaves that all layers share: the class of a byte, stores into lent memory, numbers as bytes, parts and columns.
#![tactic(auto, using(crate::proofs::Stores::stores))]

pub mod class;
pub mod column;
pub mod little;
pub mod store;
