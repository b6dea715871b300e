// The neo-Hookean energy: its gradient and its tangent stiffness.
#![tactic(auto)]

pub mod hessian;

use vector::Mat3;

// The Lamé parameters of the material, both times the rest volume; `lambda` is λ' = λ + μ.
#[repr(C)]
#[derive(Clone, Copy)]
pub struct Lame {
    pub mu: f32,
    pub lambda: f32,
}

// S = I + ε, κ and the gradient of the energy.
#[repr(C)]
#[derive(Clone, Copy)]
pub struct Energy {
    pub s: Mat3,
    pub kappa: f32,
    pub grad: [f32; 6],
}
