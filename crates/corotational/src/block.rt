// One iteration of the block: the volumetric row first, then the strain rows. And the warm start.
ghost use Rattle.std.specs.Prelude.{◌≡◌};
ghost use Rattle.corotational.specs.Corotational as spec;

use crate::Volume;
use cell::{Impulses, StrainRows};
use places::{Holds, Solved};
use strain::{add, component_mul, dot6, scale, sub};
use vector::{Four, Vec3};

// Five lists, each read alone in a solve: Springs would bring four fields that are not used here.
#[tactic(auto, unfolding(crate::specs::Corotational::residual))]
pub fn residual(
    erp: &[f32; 6],
    cfm: &[f32; 6],
    strain: &[f32; 6],
    impulse: &[f32; 6],
    rate: &[f32; 6],
) -> [f32; 6]
    ensures { result ≡ spec.residual erp.now cfm.now strain.now impulse.now rate.now }
{
    let pull = component_mul(erp, strain);
    let give = component_mul(cfm, impulse);
    sub(&add(rate, &pull), &give)
}

#[tactic(auto, unfolding(crate::specs::Corotational::volume_step))]
fn volume_step(u: Volume, impulse: f32, rate: f32, y: &[f32; 6]) -> f32
    ensures { result ≡ spec.volume_step u impulse rate y.now }
{
    u.inv_s * (u.rhs_vol - u.cfm_gain_vol * impulse + rate - dot6(&u.b, y))
}

// Strain impulses d and a volumetric impulse x more. Rows and impulses are two values here and below: see cell_record's
// `rows_and_impulses`; and d and x, for their speed, as in cell's `volume_losses`.
#[tactic(auto, unfolding(crate::specs::Corotational::applied))]
fn applied(
    rows: StrainRows,
    l: Impulses,
    d: &[f32; 6],
    grad: Four<Vec3>,
    x: f32,
) -> Solved<Impulses>
    ensures { result ≡ spec.applied rows.rot rows.coeffs rows.im l d.now grad x }
{
    Solved {
        state: Impulses {
            strain: add(&l.strain, d),
            vol: l.vol + x,
        },
        loss: rows.volume_losses(d, grad, x),
    }
}

// The volumetric row first, then the strain rows, which would take y.
#[tactic(auto, unfolding(crate::specs::Corotational::solve_rows))]
pub fn solve_rows(
    rows: StrainRows,
    l: Impulses,
    u: Volume,
    vel: Holds,
    y: &[f32; 6],
) -> Solved<Impulses>
    ensures { result ≡ spec.solve_rows rows.rot rows.coeffs rows.im l u vel y.now }
{
    let x = volume_step(u, l.vol, places::rate_of(u.grad_vol, vel), y);
    let correction = scale(&u.z, x);
    applied(rows, l, &sub(y, &correction), u.grad_vol, x)
}

#[tactic(auto, unfolding(crate::specs::Corotational::warmstart_corotational))]
pub fn warmstart_corotational(
    rows: StrainRows,
    l: Impulses,
    grad: Four<Vec3>,
    coeff: f32,
) -> Solved<Impulses>
    ensures { result ≡ spec.warmstart_corotational rows.rot rows.coeffs rows.im l grad coeff }
{
    let warm = l.scaled(coeff);
    Solved {
        state: warm,
        loss: rows.volume_losses(&warm.strain, grad, warm.vol),
    }
}
