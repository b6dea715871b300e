// The exports of the crates `linalg` and `shape`.
ghost use Rattle.std.specs.Prelude.{◌≡◌};
ghost use Rattle.linalg.specs.Eigen as eigen;
ghost use Rattle.linalg.specs.Products as products;
ghost use Rattle.shape.specs.Rotation as rotation;
ghost use Rattle.shape.specs.Cell as cell;
ghost use Rattle.c_types.specs.FourVectors.{as_four};

use c_types::FourVectors;
use linalg::Eigen;
use vector::{Mat3, Quat, Vec3};

#[unsafe(no_mangle)]
pub extern "C" fn rt_symmetric_eigen(m: Mat3) -> Eigen
    ensures { result ≡ eigen.symmetric_eigen m }
{
    linalg::symmetric_eigen(m)
}

#[unsafe(no_mangle)]
pub extern "C" fn rt_cofactor(f: Mat3) -> Mat3
    ensures { result ≡ products.cofactor f }
{
    linalg::cofactor(f)
}

#[unsafe(no_mangle)]
pub extern "C" fn rt_outer_product(a: Vec3, b: Vec3) -> Mat3
    ensures { result ≡ products.outer_product a b }
{
    linalg::outer_product(a, b)
}

#[unsafe(no_mangle)]
pub extern "C" fn rt_extract_rotation(a: Mat3, warm: Quat) -> Quat
    ensures { result ≡ rotation.extract_rotation a warm }
{
    shape::rotation::extract_rotation(a, warm)
}

#[unsafe(no_mangle)]
pub extern "C" fn rt_cell_volume(x: FourVectors) -> f32
    ensures { result ≡ cell.cell_volume (as_four x) }
{
    shape::cell::cell_volume(x.into())
}

#[unsafe(no_mangle)]
pub extern "C" fn rt_cell_volume_gradients(x: FourVectors) -> FourVectors
    ensures { as_four result ≡ cell.cell_volume_gradients (as_four x) }
{
    shape::cell::cell_volume_gradients(x.into()).into()
}

#[unsafe(no_mangle)]
pub extern "C" fn rt_cell_edge_matrix(x: FourVectors) -> Mat3
    ensures { result ≡ cell.cell_edge_matrix (as_four x) }
{
    shape::cell::cell_edge_matrix(x.into())
}
