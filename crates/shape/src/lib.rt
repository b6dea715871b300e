// The shape of a cell of four particles: its rotation, its volume and its edges.
#![tactic(auto)]

pub mod cell; // soft_body_geometry.rs, cells only
pub mod rotation; // soft_body_shape_matching.rs
