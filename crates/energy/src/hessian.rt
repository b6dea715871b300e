// The gradient of the neo-Hookean energy and its tangent stiffness.
ghost use Rattle.std.specs.Prelude.{◌≡◌};
ghost use Rattle.energy.specs.Hessian as spec;

use crate::{Energy, Lame};
use cell::tensor::{strain_matrix, strain_rows_dual};
use linalg::{Eigen, cofactor, outer_product, symmetric_eigen};
use strain::{add, ger, scale};
use vector::{Mat3, Vec3};

// ---- in the principal frame

// For each axis the product of the two other stretches, from 1.0, as the source's product starts.
#[tactic(auto, unfolding(crate::specs::Hessian::areas))]
fn areas(sigma: Vec3) -> Vec3
    ensures { result ≡ spec.areas sigma }
{
    Vec3 {
        x: 1.0 * sigma.y * sigma.z,
        y: 1.0 * sigma.x * sigma.z,
        z: 1.0 * sigma.x * sigma.y,
    }
}

fn off_diagonal(m: Mat3, h01: f32, h02: f32, h12: f32) -> Mat3
    ensures { result ≡ spec.off_diagonal m h01 h02 h12 }
{
    Mat3 {
        x: Vec3 {
            x: m.x.x,
            y: m.x.y + h01,
            z: m.x.z + h02,
        },
        y: Vec3 {
            x: m.y.x + h01,
            y: m.y.y,
            z: m.y.z + h12,
        },
        z: Vec3 {
            x: m.z.x + h02,
            y: m.z.y + h12,
            z: m.z.z,
        },
    }
}

// ---- back to strain coordinates

#[tactic(auto, unfolding(crate::specs::Hessian::scaling))]
fn scaling(q: Vec3) -> [f32; 6]
    ensures { result ≡ spec.scaling q }
{
    strain_rows_dual(outer_product(q, q))
}

// A mode in strain coordinates, by the scalings of the three axes: one by one, as the parts of v are, since an array of them would be no
// plainer to read.
#[tactic(auto, unfolding(crate::specs::Hessian::mode_of))]
fn mode_of(t0: &[f32; 6], t1: &[f32; 6], t2: &[f32; 6], v: Vec3) -> [f32; 6]
    ensures { result ≡ spec.mode_of t0.now t1.now t2.now v }
{
    let w = add(&[0.0f32; 6], &scale(t0, v.x));
    let w = add(&w, &scale(t1, v.y));
    add(&w, &scale(t2, v.z))
}

// The three scaling modes.
#[tactic(auto, unfolding(crate::specs::Hessian::with_scaling))]
fn with_scaling(nu: Vec3, q: Mat3, v: Mat3, k: &[f32; 36]) -> [f32; 36]
    ensures { result ≡ spec.with_scaling nu q v k.now }
{
    let t0 = scaling(q.x);
    let t1 = scaling(q.y);
    let t2 = scaling(q.z);
    let k = ger(nu.x, &mode_of(&t0, &t1, &t2, v.x), k);
    let k = ger(nu.y, &mode_of(&t0, &t1, &t2, v.y), &k);
    ger(nu.z, &mode_of(&t0, &t1, &t2, v.z), &k)
}

// The flip of axes a and b.
#[tactic(auto, unfolding(crate::specs::Hessian::with_flip))]
fn with_flip(h: f32, a: Vec3, b: Vec3, sqrt2: f32, k: &[f32; 36]) -> [f32; 36]
    ensures { result ≡ spec.with_flip h a b sqrt2 k.now }
{
    let d = strain_rows_dual(outer_product(a, b));
    ger(h, &scale(&d, sqrt2), k)
}

// ---- what goes by the material

impl Lame {
    #[tactic(auto, unfolding(crate::specs::Hessian::gradient))]
    pub fn gradient(self, strain: &[f32; 6]) -> Energy
        ensures { result ≡ spec.gradient self.mu self.lambda strain.now }
    {
        let s = Mat3::identity() + strain_matrix(strain);
        let kappa = self.lambda * (s.determinant() - 1.0) - self.mu;
        Energy {
            s,
            kappa,
            grad: strain_rows_dual(s * self.mu + cofactor(s) * kappa),
        }
    }

    // The Hessian in the principal frame, with sigma the principal stretches. The factor 1.0, here and in a flip's stiffness, is the
    // source's.
    #[tactic(auto, unfolding(crate::specs::Hessian::principal_hessian))]
    fn principal_hessian(self, kappa: f32, sigma: Vec3) -> Mat3
        ensures { result ≡ spec.principal_hessian self.mu self.lambda kappa sigma }
    {
        let g = areas(sigma);
        let h01 = kappa * (1.0 * sigma.z);
        let h02 = kappa * (1.0 * sigma.y);
        let h12 = kappa * (1.0 * sigma.x);
        let h = off_diagonal(Mat3::identity() * self.mu, h01, h02, h12);
        h + outer_product(g, g) * self.lambda
    }

    // A scaling mode's stiffness, at least its rest curvature.
    #[tactic(auto, unfolding(crate::specs::Hessian::floored))]
    fn floored(self, nu: f32, mode: Vec3) -> f32
        ensures { result ≡ spec.floored self.mu self.lambda nu mode }
    {
        let sum = mode.element_sum();
        real::max(nu, 2.0 * self.mu + (self.lambda - self.mu) * sum * sum)
    }

    #[tactic(auto, unfolding(crate::specs::Hessian::stiffnesses))]
    fn stiffnesses(self, h: Eigen) -> Vec3
        ensures { result ≡ spec.stiffnesses self.mu self.lambda h }
    {
        Vec3 {
            x: self.floored(h.values.x, h.vectors.x),
            y: self.floored(h.values.y, h.vectors.y),
            z: self.floored(h.values.z, h.vectors.z),
        }
    }

    // A flip's stiffness, with r the stretch of the remaining axis.
    #[tactic(auto, unfolding(crate::specs::Hessian::flip_stiffness))]
    fn flip_stiffness(self, kappa: f32, r: f32) -> f32
        ensures { result ≡ spec.flip_stiffness self.mu kappa r }
    {
        real::max(self.mu - kappa * (1.0 * r), 2.0 * self.mu)
    }

    #[tactic(auto, unfolding(crate::specs::Hessian::with_flips))]
    fn with_flips(self, kappa: f32, e: Eigen, k: &[f32; 36]) -> [f32; 36]
        ensures { result ≡ spec.with_flips self.mu kappa e k.now }
    {
        let sqrt2 = root::root(2.0);
        let sigma = e.values;
        let q = e.vectors;
        let k = with_flip(self.flip_stiffness(kappa, sigma.z), q.x, q.y, sqrt2, k);
        let k = with_flip(self.flip_stiffness(kappa, sigma.y), q.x, q.z, sqrt2, &k);
        with_flip(self.flip_stiffness(kappa, sigma.x), q.y, q.z, sqrt2, &k)
    }

    // Of s and kappa, not of an `Energy`: C, which calls it too, has no gradient to hand in.
    #[tactic(auto, unfolding(crate::specs::Hessian::hessian))]
    pub fn hessian(self, s: Mat3, kappa: f32) -> [f32; 36]
        ensures { result ≡ spec.hessian self.mu self.lambda s kappa }
    {
        let e = symmetric_eigen(s);
        let h = symmetric_eigen(self.principal_hessian(kappa, e.values));
        let k = with_scaling(self.stiffnesses(h), e.vectors, h.vectors, &[0.0f32; 36]);
        self.with_flips(kappa, e, &k)
    }
}
