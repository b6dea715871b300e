// The value and the gradients of each type of scalar row.
ghost use Rattle.std.specs.Prelude.{◌≡◌};
ghost use Rattle.gradients.specs.Gradients as spec;

use crate::dihedral::dihedral_gradients;
use crate::{Gradients, ScalarKind};
use shape::cell::{cell_volume, cell_volume_gradients};
use vector::{Four, Vec3};

#[tactic(auto, unfolding(crate::specs::Gradients::unit_x))]
fn unit_x() -> Vec3
    ensures { result ≡ spec.unit_x }
{
    Vec3 {
        x: 1.0,
        y: 0.0,
        z: 0.0,
    }
}

#[tactic(auto, unfolding(crate::specs::Gradients::distance_gradients))]
fn distance_gradients(pos: Four<Vec3>, grad: Four<Vec3>, rest: f32) -> Gradients
    ensures { result ≡ spec.distance_gradients pos grad rest }
{
    let d = pos.b - pos.a;
    let len = d.length();
    let n = real::pick(1.0e-9 < len, d / len, unit_x());
    Gradients {
        grad: Four {
            a: -n,
            b: n,
            ..grad
        },
        error: len - rest,
    }
}

#[tactic(auto, unfolding(crate::specs::Gradients::volume_gradients))]
fn volume_gradients(pos: Four<Vec3>, rest: f32) -> Gradients
    ensures { result ≡ spec.volume_gradients pos rest }
{
    Gradients {
        grad: cell_volume_gradients(pos),
        error: cell_volume(pos) - rest,
    }
}

// By the type that the number stands for.
#[tactic(auto, using(crate::specs::Kind::gradients_by_kind))]
pub fn compute_gradients(kind: u32, pos: Four<Vec3>, grad: Four<Vec3>, rest: f32) -> Gradients
    ensures { result ≡ spec.compute_gradients kind pos grad rest }
{
    match ScalarKind::from(kind) {
        ScalarKind::Distance => distance_gradients(pos, grad, rest),
        ScalarKind::Dihedral => dihedral_gradients(pos, rest),
        ScalarKind::CellVolume => volume_gradients(pos, rest),
    }
}
