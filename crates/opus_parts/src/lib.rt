// The parts of the packet reader, each at a place in a slice: length fields, frames and padding.
#![tactic(auto)]

pub mod frames_at;
pub mod padding_at;
pub mod sizes_at;
