// The update of the volumetric row: its gradients, its coupling with the strain rows and the Schur complement.
ghost use Rattle.std.specs.Prelude.{◌≡◌};
ghost use Rattle.corotational.specs.Corotational as spec;

use crate::{Springs, Volume};
use cell::tensor::{outer_sum, strain_rows_of};
use cell::update::capped;
use cell::{Compliance, StrainRows};
use places::Masses;
use strain::{dot6, mat_vec};
use vector::{Four, Mat3, Vec3};

#[tactic(auto, unfolding(crate::specs::Corotational::volumetric_gradient))]
fn volumetric_gradient(f: Mat3, inv_rest: Mat3) -> Four<Vec3>
    ensures { result ≡ spec.volumetric_gradient f inv_rest }
{
    let g = linalg::cofactor(f) * inv_rest.transpose();
    Four {
        a: Vec3::zero() - g.x - g.y - g.z,
        b: g.x,
        c: g.y,
        d: g.z,
    }
}

#[tactic(auto, unfolding(crate::specs::Corotational::volume_weight))]
fn volume_weight(g: Four<Vec3>, im: Masses) -> f32
    ensures { result ≡ spec.volume_weight g im }
{
    im.zip(g, |w, g| w * g.length_squared())
        .fold(0.0, |sum, x| sum + x)
}

#[tactic(auto, unfolding(crate::specs::Corotational::turned_gradients, crate::specs::Corotational::turned_back))]
fn turned_gradients(rot: Mat3, g: Four<Vec3>, im: Masses) -> Four<Vec3>
    ensures { result ≡ spec.turned_gradients rot g im }
{
    let inv_rot = rot.transpose();
    g.zip(im, |g, w| inv_rot * g * w)
}

#[tactic(auto, unfolding(crate::specs::Corotational::coupling))]
fn coupling(rows: StrainRows, g: Four<Vec3>) -> [f32; 6]
    ensures { result ≡ spec.coupling rows.rot g rows.im rows.coeffs }
{
    strain_rows_of(outer_sum(turned_gradients(rows.rot, g, rows.im), rows.coeffs))
}

#[tactic(auto, unfolding(crate::specs::Corotational::volume_bias))]
fn volume_bias(s: Springs, inverted: bool, f: Mat3) -> f32
    ensures { result ≡ spec.volume_bias s inverted f }
{
    capped(inverted, f.determinant() - 1.0, s.vol_cap) * s.erp_vol
}

#[tactic(auto, unfolding(crate::specs::Corotational::inv_schur))]
fn inv_schur(volumetric: bool, w: f32, gain: f32, b: &[f32; 6], z: &[f32; 6]) -> f32
    ensures { result ≡ spec.inv_schur volumetric w gain b.now z.now }
{
    real::pick(volumetric, real::inv(w + gain - dot6(b, z)), 0.0)
}

// With f the deformation gradient, and the rows' rotation and `inverted` those of the same update. Six parts, each read where it lies: a
// Cell and a Pose in their place would bring the caps, the positions, the quaternion and the strain, which are not used here.
#[tactic(auto, unfolding(crate::specs::Corotational::update_volume))]
pub fn update_volume(
    rows: StrainRows,
    inv_rest: Mat3,
    s: Springs,
    k: Compliance,
    inverted: bool,
    f: Mat3,
) -> Volume
    ensures { result ≡ spec.update_volume inv_rest rows.coeffs rows.im s k.inv_a rows.rot inverted f }
{
    let grad_vol = volumetric_gradient(f, inv_rest);
    let w = volume_weight(grad_vol, rows.im);
    let cfm_gain_vol = w * s.cfm_coeff_vol;
    let b = coupling(rows, grad_vol);
    let z = mat_vec(&k.inv_a, &b);
    Volume {
        grad_vol,
        cfm_gain_vol,
        rhs_vol: volume_bias(s, inverted, f),
        b,
        z,
        inv_s: inv_schur(s.volumetric, w, cfm_gain_vol, &b, &z),
    }
}
