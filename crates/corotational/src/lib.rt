// The corotational row.
#![tactic(auto)]

pub mod block; // the warm start and the solve
pub mod volumetric; // the update of the volumetric row

use cell::{Cell, Compliance, Impulses, Pose};
use vector::{Four, Vec3};

// Corotational: what no step alters. `volumetric` is a fact of the row, as in the Rust: no field is valid only with it.
#[repr(C)]
#[derive(Clone, Copy)]
pub struct Springs {
    pub erp_strain: [f32; 6],
    pub cfm_strain: [f32; 6],
    pub erp_vol: f32,
    pub cfm_coeff_vol: f32,
    pub vol_cap: f32,
    pub volumetric: bool,
}

// Corotational: the volumetric row and its coupling with the strain rows, which an update assigns.
#[repr(C)]
#[derive(Clone, Copy)]
pub struct Volume {
    pub grad_vol: Four<Vec3>,
    pub cfm_gain_vol: f32,
    pub rhs_vol: f32,
    pub b: [f32; 6],
    pub z: [f32; 6],
    pub inv_s: f32,
}

#[repr(C)]
#[derive(Clone, Copy)]
pub struct CorotationalRow {
    pub cell: Cell,
    pub pose: Pose,
    pub compliance: Compliance,
    pub impulses: Impulses,
    pub springs: Springs,
    pub volume: Volume,
}
