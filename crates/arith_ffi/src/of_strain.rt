// The exports of the crates `strain` and `inverse`: an array goes by its address, and an answer that is one is written to the last.
ghost use Rattle.std.specs.Prelude.{◌≡◌};
ghost use Rattle.strain.specs.Six as six;
ghost use Rattle.strain.specs.Matrix as matrix;
ghost use Rattle.inverse.specs.Inverse as inverse;

#[unsafe(no_mangle)]
pub extern "C" fn rt_add6(a: &[f32; 6], b: &[f32; 6], out: &mut [f32; 6])
    ensures { out.new ≡ six.add6 a.now b.now }
{
    *out = strain::add(a, b);
}

#[unsafe(no_mangle)]
pub extern "C" fn rt_sub6(a: &[f32; 6], b: &[f32; 6], out: &mut [f32; 6])
    ensures { out.new ≡ six.sub6 a.now b.now }
{
    *out = strain::sub(a, b);
}

#[unsafe(no_mangle)]
pub extern "C" fn rt_component_mul6(a: &[f32; 6], b: &[f32; 6], out: &mut [f32; 6])
    ensures { out.new ≡ six.component_mul6 a.now b.now }
{
    *out = strain::component_mul(a, b);
}

#[unsafe(no_mangle)]
pub extern "C" fn rt_scale6(a: &[f32; 6], k: f32, out: &mut [f32; 6])
    ensures { out.new ≡ six.scale6 a.now k }
{
    *out = strain::scale(a, k);
}

#[unsafe(no_mangle)]
pub extern "C" fn rt_dot6(a: &[f32; 6], b: &[f32; 6]) -> f32
    ensures { result ≡ six.dot6 a.now b.now }
{
    strain::dot6(a, b)
}

#[unsafe(no_mangle)]
pub extern "C" fn rt_mat_vec(m: &[f32; 36], v: &[f32; 6], out: &mut [f32; 6])
    ensures { out.new ≡ matrix.mat_vec m.now v.now }
{
    *out = strain::mat_vec(m, v);
}

#[unsafe(no_mangle)]
pub extern "C" fn rt_mat_mul(a: &[f32; 36], b: &[f32; 36], out: &mut [f32; 36])
    ensures { out.new ≡ matrix.mat_mul a.now b.now }
{
    *out = strain::mat_mul(a, b);
}

#[unsafe(no_mangle)]
pub extern "C" fn rt_ger(factor: f32, w: &[f32; 6], m: &[f32; 36], out: &mut [f32; 36])
    ensures { out.new ≡ matrix.ger factor w.now m.now }
{
    *out = strain::ger(factor, w, m);
}

#[unsafe(no_mangle)]
pub extern "C" fn rt_from_diagonal(d: &[f32; 6], out: &mut [f32; 36])
    ensures { out.new ≡ matrix.from_diagonal d.now }
{
    *out = strain::from_diagonal(d);
}

#[unsafe(no_mangle)]
pub extern "C" fn rt_identity6(out: &mut [f32; 36])
    ensures { out.new ≡ matrix.identity6 }
{
    *out = strain::identity6();
}

#[unsafe(no_mangle)]
pub extern "C" fn rt_add36(a: &[f32; 36], b: &[f32; 36], out: &mut [f32; 36])
    ensures { out.new ≡ matrix.add36 a.now b.now }
{
    *out = strain::add(a, b);
}

#[unsafe(no_mangle)]
pub extern "C" fn rt_scale36(m: &[f32; 36], k: f32, out: &mut [f32; 36])
    ensures { out.new ≡ matrix.scale36 m.now k }
{
    *out = strain::scale(m, k);
}

#[unsafe(no_mangle)]
pub extern "C" fn rt_try_inverse(m: &[f32; 36], out: &mut [f32; 36])
    ensures { out.new ≡ inverse.try_inverse m.now }
{
    *out = inverse::try_inverse(m);
}
