// The exports of the crate `cell`.
ghost use Rattle.std.specs.Prelude.{◌≡◌};
ghost use Rattle.cell.specs.Strain as strain;
ghost use Rattle.c_types.specs.FourVectors.{as_four};

use c_types::FourVectors;
use vector::Mat3;

#[unsafe(no_mangle)]
pub extern "C" fn rt_strain_rows_of(m: Mat3, out: &mut [f32; 6])
    ensures { out.new ≡ strain.strain_rows_of m }
{
    *out = cell::tensor::strain_rows_of(m);
}

#[unsafe(no_mangle)]
pub extern "C" fn rt_strain_rows_dual(m: Mat3, out: &mut [f32; 6])
    ensures { out.new ≡ strain.strain_rows_dual m }
{
    *out = cell::tensor::strain_rows_dual(m);
}

#[unsafe(no_mangle)]
pub extern "C" fn rt_strain_matrix(e: &[f32; 6]) -> Mat3
    ensures { result ≡ strain.strain_matrix e.now }
{
    cell::tensor::strain_matrix(e)
}

#[unsafe(no_mangle)]
pub extern "C" fn rt_outer_sum(a: FourVectors, b: FourVectors) -> Mat3
    ensures { result ≡ strain.outer_sum (as_four a) (as_four b) }
{
    cell::tensor::outer_sum(a.into(), b.into())
}

#[unsafe(no_mangle)]
pub extern "C" fn rt_strain_block_from_g(g: Mat3, out: &mut [f32; 36])
    ensures { out.new ≡ strain.strain_block_from_g g }
{
    *out = cell::tensor::strain_block_from_g(g);
}
