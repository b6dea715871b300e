// What both elastic rows share: strains in six coordinates, the update of positions, rotation and strain, and what impulses take from each
// place.
#![tactic(auto)]

pub mod solve; // velocities in the cell's frame, and what impulses take
pub mod tensor; // strains in six coordinates and as tensors
pub mod update; // the update of positions, rotation and strain

ghost use Rattle.std.specs.Prelude.{◌≡◌};
ghost use Rattle.cell.specs.Cell as spec;

use places::Masses;
use vector::{Four, Mat3, Quat, Vec3};

// What no step alters. `strain_cap` bounds each strain while the cell is inverted.
#[repr(C)]
#[derive(Clone, Copy)]
pub struct Cell {
    pub im: Masses,
    pub coeffs: Four<Vec3>,
    pub inv_rest_matrix: Mat3,
    pub strain_cap: [f32; 6],
}

// What an update assigns in both models. `rot_mat` is `rotation` as a matrix.
#[repr(C)]
#[derive(Clone, Copy)]
pub struct Pose {
    pub pos: Four<Vec3>,
    pub rotation: Quat,
    pub rot_mat: Mat3,
    pub strain: [f32; 6],
    // A fact of the row, as in the Rust: no other field is valid only with it.
    pub inverted: bool,
}

// The inverse of the strain rows' block.
#[repr(C)]
#[derive(Clone, Copy)]
pub struct Compliance {
    pub inv_a: [f32; 36],
}

// What a warm start and a solve assign.
#[repr(C)]
#[derive(Clone, Copy)]
pub struct Impulses {
    pub strain: [f32; 6],
    pub vol: f32,
}

impl Impulses {
    // As a warm start takes them over from the substep before.
    pub fn scaled(self, coeff: f32) -> Impulses
        ensures { result ≡ spec.scaled self coeff }
    {
        Impulses {
            strain: strain::scale(&self.strain, coeff),
            vol: self.vol * coeff,
        }
    }
}

// The strain rows of a cell under a rotation: its coefficients say how the velocities of its places strain it, and what each place is to
// lose for an impulse goes by them and by its inverse mass. The rotation stands last: before the coefficients it would put them out of line
// with what a vector load takes, and losses took a fifth longer.
#[repr(C)]
#[derive(Clone, Copy)]
pub struct StrainRows {
    pub coeffs: Four<Vec3>,
    pub im: Masses,
    pub rot: Mat3,
}
