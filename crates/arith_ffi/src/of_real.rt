// The exports of the crate `real`.
ghost use Rattle.std.specs.Prelude.{◌≡◌};
ghost use Rattle.real.specs.Real as spec;
ghost use Rattle.real.specs.SinCos as sine;
ghost use Rattle.real.specs.Acos as arc;

use real::SinCos;

#[unsafe(no_mangle)]
pub extern "C" fn rt_abs(x: f32) -> f32
    ensures { result ≡ spec.abs x }
{
    real::abs(x)
}

#[unsafe(no_mangle)]
pub extern "C" fn rt_signum(x: f32) -> f32
    ensures { result ≡ spec.signum x }
{
    real::signum(x)
}

#[unsafe(no_mangle)]
pub extern "C" fn rt_max(a: f32, b: f32) -> f32
    ensures { result ≡ spec.max a b }
{
    real::max(a, b)
}

#[unsafe(no_mangle)]
pub extern "C" fn rt_clamp(x: f32, lower: f32, upper: f32) -> f32
    ensures { result ≡ spec.clamp x lower upper }
{
    real::clamp(x, lower, upper)
}

#[unsafe(no_mangle)]
pub extern "C" fn rt_inv(x: f32) -> f32
    ensures { result ≡ spec.inv x }
{
    real::inv(x)
}

#[unsafe(no_mangle)]
pub extern "C" fn rt_acos(d: f32) -> f32
    ensures { result ≡ arc.acos d }
{
    real::acos(d)
}

// x % 6.2831855
#[unsafe(no_mangle)]
pub extern "C" fn rt_rem_turn(x: f32) -> f32
    ensures { result ≡ sine.rem_turn x }
{
    real::rem_turn(x)
}

// Of w / 2.
#[unsafe(no_mangle)]
pub extern "C" fn rt_sin_cos(w: f32) -> SinCos
    ensures { result ≡ sine.sin_cos w }
{
    real::sin_cos(w)
}
