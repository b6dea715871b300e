// The exports of the crate `gradients`.
ghost use Rattle.std.specs.Prelude.{◌≡◌};
ghost use Rattle.gradients.specs.Dihedral as dihedral;
ghost use Rattle.gradients.specs.Gradients as gradients;
ghost use Rattle.c_types.specs.FourVectors.{as_four};
ghost use Rattle.rows_ffi.specs.Mirrors.{as_gradients};

use crate::mirrors::Gradients;
use c_types::FourVectors;

#[unsafe(no_mangle)]
pub extern "C" fn rt_dihedral_gradients(pos: FourVectors, rest: f32) -> Gradients
    ensures { as_gradients result ≡ dihedral.dihedral_gradients (as_four pos) rest }
{
    gradients::dihedral::dihedral_gradients(pos.into(), rest).into()
}

#[unsafe(no_mangle)]
pub extern "C" fn rt_scalar_compute_gradients(
    kind: u32,
    pos: FourVectors,
    grad: FourVectors,
    rest: f32,
) -> Gradients
    ensures { as_gradients result ≡ gradients.compute_gradients kind (as_four pos) (as_four grad) rest }
{
    gradients::gradient::compute_gradients(kind, pos.into(), grad.into(), rest).into()
}
