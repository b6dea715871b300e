// The update: the gradient anew each time, the stiffness and the block's inverse only after a move.
ghost use Rattle.std.specs.Prelude.{◌≡◌};
ghost use Rattle.neo_hookean.specs.NeoHookean as spec;

use crate::{Block, Material, Stiffness};
use cell::Compliance;
use cell::tensor::{outer_sum, strain_block_from_g, weighted};
use energy::Energy;
use inverse::try_inverse;
use places::Masses;
use strain::{add, all_within6, from_diagonal, identity6, mat_mul, scale, sub};
use vector::{Four, Vec3};

// STIFFNESS_UPDATE_STRAIN of the Rust.
const NEARBY: f32 = 0.02;

#[tactic(auto, unfolding(crate::specs::NeoHookean::is_fresh))]
pub fn is_fresh(strain: &[f32; 6], last: &[f32; 6]) -> bool
    ensures { result ≡ spec.is_fresh strain.now last.now }
{
    all_within6(&sub(strain, last), NEARBY)
}

// M = dt (dt K + D).
#[tactic(auto, unfolding(crate::specs::NeoHookean::stiffness_matrix))]
pub fn stiffness_matrix(p: Material, e: Energy) -> [f32; 36]
    ensures { result ≡ spec.stiffness_matrix p e }
{
    let k = scale(&p.lame.hessian(e.s, e.kappa), p.dt);
    scale(&add(&k, &from_diagonal(&p.damping)), p.dt)
}

// The effective-mass block A. It has no rotation, so that its coefficients and inverse masses are not StrainRows here and below; a struct
// of the two would be made for these calls alone.
#[tactic(auto, unfolding(crate::specs::NeoHookean::strain_block))]
pub fn strain_block(coeffs: Four<Vec3>, im: Masses) -> [f32; 36]
    ensures { result ≡ spec.strain_block coeffs im }
{
    strain_block_from_g(outer_sum(weighted(coeffs, im), coeffs))
}

// M A + I.
#[tactic(auto, unfolding(crate::specs::NeoHookean::block))]
pub fn block(coeffs: Four<Vec3>, im: Masses, m: &[f32; 36]) -> [f32; 36]
    ensures { result ≡ spec.block coeffs im m.now }
{
    add(&mat_mul(m, &strain_block(coeffs, im)), &identity6())
}

// Six parts, each read or computed where an update has it: a struct of them would be made for this call alone.
#[tactic(auto, unfolding(crate::specs::NeoHookean::renewed))]
pub fn renewed(
    coeffs: Four<Vec3>,
    im: Masses,
    p: Material,
    e: Energy,
    strain: &[f32; 6],
    dt_grad: &[f32; 6],
) -> Block
    ensures { result ≡ spec.renewed coeffs im p e strain.now dt_grad.now }
{
    let m = stiffness_matrix(p, e);
    let inv_a = try_inverse(&block(coeffs, im, &m));
    Block {
        stiffness: Stiffness {
            stiffness_strain: *strain,
            m,
            dt_grad: *dt_grad,
        },
        compliance: Compliance { inv_a },
    }
}
