// The exports of the crate `energy`.
ghost use Rattle.std.specs.Prelude.{◌≡◌};
ghost use Rattle.energy.specs.Hessian as hessian;

use energy::{Energy, Lame};
use vector::Mat3;

#[unsafe(no_mangle)]
pub extern "C" fn rt_neo_hookean_gradient(mu: f32, lambda: f32, strain: &[f32; 6]) -> Energy
    ensures { result ≡ hessian.gradient mu lambda strain.now }
{
    Lame { mu, lambda }.gradient(strain)
}

#[unsafe(no_mangle)]
pub extern "C" fn rt_neo_hookean_hessian(
    mu: f32,
    lambda: f32,
    s: Mat3,
    kappa: f32,
    out: &mut [f32; 36],
)
    ensures { out.new ≡ hessian.hessian mu lambda s kappa }
{
    *out = Lame { mu, lambda }.hessian(s, kappa);
}
