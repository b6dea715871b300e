// The update of positions, rotation and strain.
ghost use Rattle.std.specs.Prelude.{◌≡◌};
ghost use Rattle.cell.specs.Cell as spec;

use crate::Pose;
use crate::tensor::strain_rows_of;
use shape::cell::cell_edge_matrix;
use shape::rotation::extract_rotation;
use vector::{Four, Mat3, Quat, Vec3};

#[tactic(auto, unfolding(crate::specs::Cell::deformation_gradient))]
pub fn deformation_gradient(pos: Four<Vec3>, inv_rest_matrix: Mat3) -> Mat3
    ensures { result ≡ spec.deformation_gradient pos inv_rest_matrix }
{
    cell_edge_matrix(pos) * inv_rest_matrix
}

#[tactic(auto, unfolding(crate::specs::Cell::is_inverted))]
fn is_inverted(f: Mat3) -> bool
    ensures { result ≡ spec.is_inverted f }
{
    f.determinant() < 0.0
}

fn cap_of(inverted: bool, cap: f32) -> f32
    ensures { result ≡ spec.cap_of inverted cap }
{
    real::pick(inverted, cap, real::max(cap, 1.0))
}

// An error drawn into its cap.
#[tactic(auto, unfolding(crate::specs::Cell::capped))]
pub fn capped(inverted: bool, e: f32, cap: f32) -> f32
    ensures { result ≡ spec.capped inverted e cap }
{
    let c = cap_of(inverted, cap);
    real::clamp(e, -c, c)
}

#[tactic(auto, unfolding(crate::specs::Cell::capped_strain))]
fn capped_strain(inverted: bool, e: &[f32; 6], caps: &[f32; 6]) -> [f32; 6]
    ensures { result ≡ spec.capped_strain inverted e.now caps.now }
{
    std::array::from_fn(|i| capped(inverted, e[i], caps[i]))
}

// The corotated strain: sym(RᵀF) - I.
#[tactic(auto, unfolding(crate::specs::Cell::strain_of))]
fn strain_of(rot: Mat3, f: Mat3) -> [f32; 6]
    ensures { result ≡ spec.strain_of rot f }
{
    strain_rows_of(rot.transpose() * f - Mat3::identity())
}

// The pose at refreshed positions, with f the deformation gradient there and `warm` the last rotation.
#[tactic(auto, unfolding(crate::specs::Cell::posed))]
pub fn posed(caps: &[f32; 6], warm: Quat, pos: Four<Vec3>, f: Mat3) -> Pose
    ensures { result ≡ spec.posed caps.now warm pos f }
{
    let rotation = extract_rotation(f, warm);
    let rot_mat = rotation.to_matrix();
    let inverted = is_inverted(f);
    let e = strain_of(rot_mat, f);
    let strain = capped_strain(inverted, &e, caps);
    Pose {
        pos,
        rotation,
        rot_mat,
        strain,
        inverted,
    }
}

// Whether a strain, as last updated, is past the least: such rows are solved again after the main sweep.
#[tactic(auto, unfolding(crate::specs::Cell::is_strained))]
pub fn is_strained(e: &[f32; 6], least: f32) -> bool
    ensures { result ≡ spec.is_strained e.now least }
{
    strain::any_above6(e, least)
}
