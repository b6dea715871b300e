// One iteration of the strain rows, and the warm start.
ghost use Rattle.std.specs.Prelude.{◌≡◌};
ghost use Rattle.strain.specs.Matrix.{mat_vec};
ghost use Rattle.neo_hookean.specs.NeoHookean as spec;

use crate::Stiffness;
use cell::{Impulses, StrainRows};
use places::Solved;
use strain::{add, mat_vec, sub};

// M rate + dt g - λ, where pull is M rate.
#[tactic(auto, unfolding(crate::specs::NeoHookean::residual))]
fn residual(pull: &[f32; 6], dt_grad: &[f32; 6], impulse: &[f32; 6]) -> [f32; 6]
    ensures { result ≡ spec.residual pull.now dt_grad.now impulse.now }
{
    sub(&add(pull, dt_grad), impulse)
}

impl Stiffness {
    // The residual at these rates.
    pub fn pulled(self, rate: &[f32; 6], impulse: &[f32; 6]) -> [f32; 6]
        ensures { result ≡ spec.residual (mat_vec self.m rate.now) self.dt_grad impulse.now }
    {
        let pull = mat_vec(&self.m, rate);
        residual(&pull, &self.dt_grad, impulse)
    }
}

// Impulses d more. Rows and impulses are two values here and below: see cell_record's `rows_and_impulses`.
#[tactic(auto, unfolding(crate::specs::NeoHookean::applied))]
pub fn applied(rows: StrainRows, l: Impulses, d: &[f32; 6]) -> Solved<Impulses>
    ensures { result ≡ spec.applied rows.rot rows.coeffs rows.im l d.now }
{
    Solved {
        state: Impulses {
            strain: add(&l.strain, d),
            ..l
        },
        loss: rows.losses(d),
    }
}

// The volumetric impulse is scaled too, though this model never uses it.
#[tactic(auto, unfolding(crate::specs::NeoHookean::warmstart_neo_hookean))]
pub fn warmstart_neo_hookean(rows: StrainRows, l: Impulses, coeff: f32) -> Solved<Impulses>
    ensures { result ≡ spec.warmstart_neo_hookean rows.rot rows.coeffs rows.im l coeff }
{
    let warm = l.scaled(coeff);
    Solved {
        state: warm,
        loss: rows.losses(&warm.strain),
    }
}
