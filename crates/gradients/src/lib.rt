// The error of a scalar row and its gradients, by the type of the row.
#![tactic(auto)]

pub mod dihedral; // the angle between two triangles
pub mod gradient; // the value and the gradients of each type

ghost use Rattle.std.specs.Prelude.{◌≡◌};
ghost use Rattle.gradients.specs.Kind as spec;

use vector::{Four, Vec3};

// What a scalar row constrains.
#[derive(Clone, Copy, Debug, PartialEq, Eq)]
pub enum ScalarKind {
    Distance, // |x1 - x0| - rest, of two particles
    Dihedral, // the angle between two triangles with a common edge
    CellVolume, // the signed volume of a cell, less its rest volume
}

// The kind of a record's number. A number that is no kind's counts as a cell volume's.
impl From<u32> for ScalarKind {
    ghost from_gives = { λ n kind. kind ≡ spec.kind_of n };

    #[tactic(auto, unfolding(crate::specs::Kind::kind_of))]
    fn from(n: u32) -> ScalarKind {
        match n {
            0 => ScalarKind::Distance,
            1 => ScalarKind::Dihedral,
            _ => ScalarKind::CellVolume,
        }
    }
}

// A row's gradients and its error.
#[repr(C)]
#[derive(Clone, Copy)]
pub struct Gradients {
    pub grad: Four<Vec3>,
    pub error: f32,
}

// Two triangles with a common edge, from particle 0 to particle 1: the edges from particle 0, the unit normals, and the lengths that these
// had.
#[repr(C)]
#[derive(Clone, Copy)]
pub struct Fold {
    pub p1: Vec3,
    pub p2: Vec3,
    pub p3: Vec3,
    pub n1: Vec3,
    pub n2: Vec3,
    pub l1: f32,
    pub l2: f32,
}
