// The exports of the crate `vector`.
ghost use Rattle.std.specs.Prelude.{◌≡◌};
ghost use Rattle.vector.specs.Vector as spec;
ghost use Rattle.vector.specs.Matrix as matrix;
ghost use Rattle.vector.specs.Quaternion as quaternion;

use vector::{Mat3, Quat, Vec3};

#[unsafe(no_mangle)]
pub extern "C" fn rt_add(a: Vec3, b: Vec3) -> Vec3
    ensures { result ≡ spec.add a b }
{
    a + b
}

#[unsafe(no_mangle)]
pub extern "C" fn rt_sub(a: Vec3, b: Vec3) -> Vec3
    ensures { result ≡ spec.sub a b }
{
    a - b
}

#[unsafe(no_mangle)]
pub extern "C" fn rt_neg(a: Vec3) -> Vec3
    ensures { result ≡ spec.neg a }
{
    -a
}

#[unsafe(no_mangle)]
pub extern "C" fn rt_scale(a: Vec3, k: f32) -> Vec3
    ensures { result ≡ spec.scale a k }
{
    a * k
}

#[unsafe(no_mangle)]
pub extern "C" fn rt_divide(a: Vec3, k: f32) -> Vec3
    ensures { result ≡ spec.divide a k }
{
    a / k
}

#[unsafe(no_mangle)]
pub extern "C" fn rt_dot(a: Vec3, b: Vec3) -> f32
    ensures { result ≡ spec.dot a b }
{
    a.dot(b)
}

#[unsafe(no_mangle)]
pub extern "C" fn rt_cross(a: Vec3, b: Vec3) -> Vec3
    ensures { result ≡ spec.cross a b }
{
    a.cross(b)
}

#[unsafe(no_mangle)]
pub extern "C" fn rt_length(a: Vec3) -> f32
    ensures { result ≡ spec.length_of a }
{
    a.length()
}

#[unsafe(no_mangle)]
pub extern "C" fn rt_length_squared(a: Vec3) -> f32
    ensures { result ≡ spec.length_squared a }
{
    a.length_squared()
}

#[unsafe(no_mangle)]
pub extern "C" fn rt_element_sum(a: Vec3) -> f32
    ensures { result ≡ spec.element_sum a }
{
    a.element_sum()
}

#[unsafe(no_mangle)]
pub extern "C" fn rt_transpose(m: Mat3) -> Mat3
    ensures { result ≡ matrix.transpose m }
{
    m.transpose()
}

#[unsafe(no_mangle)]
pub extern "C" fn rt_add_mat(m: Mat3, n: Mat3) -> Mat3
    ensures { result ≡ matrix.add_mat m n }
{
    m + n
}

#[unsafe(no_mangle)]
pub extern "C" fn rt_sub_mat(m: Mat3, n: Mat3) -> Mat3
    ensures { result ≡ matrix.sub_mat m n }
{
    m - n
}

#[unsafe(no_mangle)]
pub extern "C" fn rt_scale_mat(m: Mat3, k: f32) -> Mat3
    ensures { result ≡ matrix.scale_mat m k }
{
    m * k
}

#[unsafe(no_mangle)]
pub extern "C" fn rt_mul_vec(m: Mat3, v: Vec3) -> Vec3
    ensures { result ≡ matrix.mul_vec m v }
{
    m * v
}

#[unsafe(no_mangle)]
pub extern "C" fn rt_mul_mat(m: Mat3, n: Mat3) -> Mat3
    ensures { result ≡ matrix.mul_mat m n }
{
    m * n
}

#[unsafe(no_mangle)]
pub extern "C" fn rt_determinant(m: Mat3) -> f32
    ensures { result ≡ matrix.determinant m }
{
    m.determinant()
}

#[unsafe(no_mangle)]
pub extern "C" fn rt_product(p: Quat, q: Quat) -> Quat
    ensures { result ≡ quaternion.product p q }
{
    p * q
}

#[unsafe(no_mangle)]
pub extern "C" fn rt_normalise(q: Quat) -> Quat
    ensures { result ≡ quaternion.normalise q }
{
    q.normalise()
}

#[unsafe(no_mangle)]
pub extern "C" fn rt_to_matrix(q: Quat) -> Mat3
    ensures { result ≡ quaternion.to_matrix q }
{
    q.to_matrix()
}

#[unsafe(no_mangle)]
pub extern "C" fn rt_from_axis_angle(axis: Vec3, w: f32) -> Quat
    ensures { result ≡ quaternion.from_axis_angle axis w }
{
    Quat::from_axis_angle(axis, w)
}
