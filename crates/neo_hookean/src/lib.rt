// The neo-Hookean row.
#![tactic(auto)]

pub mod iteration; // the warm start and the solve
pub mod renewal; // the stiffness and the block, kept or renewed

use cell::{Cell, Compliance, Impulses, Pose};
use energy::Lame;

// Neo-Hookean: what no step alters.
#[repr(C)]
#[derive(Clone, Copy)]
pub struct Material {
    pub dt: f32,
    pub lame: Lame,
    pub damping: [f32; 6],
}

// Neo-Hookean: what an update assigns. The strain is the one that `m` and the block's inverse were computed at.
#[repr(C)]
#[derive(Clone, Copy)]
pub struct Stiffness {
    pub stiffness_strain: [f32; 6],
    pub m: [f32; 36],
    pub dt_grad: [f32; 6],
}

#[repr(C)]
#[derive(Clone, Copy)]
pub struct NeoHookeanRow {
    pub cell: Cell,
    pub pose: Pose,
    pub compliance: Compliance,
    pub impulses: Impulses,
    pub material: Material,
    pub stiffness: Stiffness,
}

// The stiffness and the block's inverse, renewed.
#[repr(C)]
#[derive(Clone, Copy)]
pub struct Block {
    pub stiffness: Stiffness,
    pub compliance: Compliance,
}
