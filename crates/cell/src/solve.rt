// The velocities in the cell's frame, and what an impulse takes from each place.
ghost use Rattle.std.specs.Prelude.{◌≡◌};
ghost use Rattle.cell.specs.Cell as spec;
ghost use Rattle.strain.specs.Matrix.{mat_vec};

use crate::tensor::{outer_sum, strain_rows_of, strain_tensor, weighted};
use crate::{Compliance, StrainRows};
use places::Holds;
use vector::{Four, Mat3, Vec3};

impl Compliance {
    // The impulses that answer a residual of the strain rows.
    pub fn eased(self, residual: &[f32; 6]) -> [f32; 6]
        ensures { result ≡ mat_vec self.inv_a residual.now }
    {
        strain::mat_vec(&self.inv_a, residual)
    }
}

fn local_of(inv_rot: Mat3, vel: Option<Vec3>) -> Vec3
    ensures { result ≡ spec.local_of inv_rot vel }
{
    vel.map_or(Vec3::zero(), |v| inv_rot * v)
}

#[tactic(auto, unfolding(crate::specs::Cell::local_velocities))]
pub fn local_velocities(rot: Mat3, vel: Holds) -> Four<Vec3>
    ensures { result ≡ spec.local_velocities rot vel }
{
    let inv_rot = rot.transpose();
    vel.map(|v| local_of(inv_rot, v))
}

impl StrainRows {
    #[tactic(auto, unfolding(crate::specs::Cell::strain_rates))]
    pub fn rates(self, vel: Holds) -> [f32; 6]
        ensures { result ≡ spec.strain_rates self.rot self.coeffs vel }
    {
        strain_rows_of(outer_sum(local_velocities(self.rot, vel), self.coeffs))
    }

    // What the places are to lose for the strain impulses l.
    #[tactic(auto, unfolding(crate::specs::Cell::strain_losses, crate::specs::Cell::strain_loss, crate::specs::Strain::weighted))]
    pub fn losses(self, l: &[f32; 6]) -> Four<Vec3>
        ensures { result ≡ spec.strain_losses self.rot self.coeffs self.im l.now }
    {
        let t = strain_tensor(l);
        weighted(self.coeffs.map(|c| self.rot * (t * c)), self.im)
    }

    // And for a volumetric impulse x along its gradients. As one `Impulses` with l, here and in corotational's `applied`, a resweep took
    // 119.5 ns for 117.0 for each corotational row.
    #[tactic(auto, unfolding(crate::specs::Cell::volume_losses, crate::specs::Cell::volume_loss, crate::specs::Strain::weighted))]
    pub fn volume_losses(self, l: &[f32; 6], grad: Four<Vec3>, x: f32) -> Four<Vec3>
        ensures { result ≡ spec.volume_losses self.rot self.coeffs self.im l.now grad x }
    {
        let t = strain_tensor(l);
        let local = self.coeffs.zip(grad, |c, g| self.rot * (t * c) + g * x);
        weighted(local, self.im)
    }
}
