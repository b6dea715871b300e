// The rotation nearest to a matrix, from a warm start.
ghost use Rattle.std.specs.Prelude.{◌≡◌};
ghost use Rattle.shape.specs.Rotation as spec;

use vector::{Mat3, Quat, Vec3};

// A correction below this length ends the search.
const LEAST: f32 = 16.0 * f32::EPSILON;

// Columns crossed, and summed from zero, as the source does.
#[tactic(auto, unfolding(crate::specs::Rotation::cross_sum))]
fn cross_sum(r: Mat3, a: Mat3) -> Vec3
    ensures { result ≡ spec.cross_sum r a }
{
    Vec3::zero() + r.x.cross(a.x) + r.y.cross(a.y) + r.z.cross(a.z)
}

#[tactic(auto, unfolding(crate::specs::Rotation::dot_sum))]
fn dot_sum(r: Mat3, a: Mat3) -> f32
    ensures { result ≡ spec.dot_sum r a }
{
    0.0 + r.x.dot(a.x) + r.y.dot(a.y) + r.z.dot(a.z)
}

// The source's omega: an axis to turn q about, as long as the angle.
#[tactic(auto, unfolding(crate::specs::Rotation::correction))]
fn correction(a: Mat3, q: Quat) -> Vec3
    ensures { result ≡ spec.correction a q }
{
    let r = q.to_matrix();
    let denom = real::abs(dot_sum(r, a)) + 1.0e-9;
    cross_sum(r, a) * (1.0 / denom)
}

// The correction o, which is w long, as a quaternion; where it is small not of length 1. A type for o and w would be no plainer: they are
// taken apart at once.
#[tactic(auto, unfolding(crate::specs::Rotation::step))]
fn step(o: Vec3, w: f32) -> Quat
    ensures { result ≡ spec.step o w }
{
    if w > 0.1 {
        return Quat::from_axis_angle(o / w, w);
    }
    Quat {
        x: 0.5 * o.x,
        y: 0.5 * o.y,
        z: 0.5 * o.z,
        w: 1.0,
    }
}

// q after a turn by the correction o, which is w long.
#[tactic(auto, unfolding(crate::specs::Rotation::turned))]
fn turned(o: Vec3, w: f32, q: Quat) -> Quat
    ensures { result ≡ spec.turned o w q }
{
    (step(o, w) * q).normalise()
}

#[tactic(auto, using(loops::specs::Loops::stopping), unfolding(crate::specs::Rotation::extract_rotation))]
pub fn extract_rotation(a: Mat3, warm: Quat) -> Quat
    ensures { result ≡ spec.extract_rotation a warm }
{
    let mut q = warm;
    for _ in 0usize..8 {
        let o = correction(a, q);
        let w = o.length();
        if w < LEAST {
            break;
        }
        q = turned(o, w, q);
    }
    q
}
