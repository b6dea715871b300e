// Quaternions, as rotations.
ghost use Rattle.std.specs.Prelude.{◌≡◌};
ghost use Rattle.vector.specs.Quaternion as spec;

use crate::{Mat3, Quat, Vec3};
use std::ops::Mul;

impl Mul for Quat {
    type Output = Quat;

    ghost mul_gives = { λ p q r. r ≡ spec.product p q };

    #[tactic(auto, unfolding(crate::specs::Quaternion::product))]
    fn mul(self, q: Quat) -> Quat {
        Quat {
            x: self.w * q.x + self.x * q.w + self.y * q.z - self.z * q.y,
            y: self.w * q.y - self.x * q.z + self.y * q.w + self.z * q.x,
            z: self.w * q.z + self.x * q.y - self.y * q.x + self.z * q.w,
            w: self.w * q.w - self.x * q.x - self.y * q.y - self.z * q.z,
        }
    }
}

impl Quat {
    #[tactic(auto, unfolding(crate::specs::Quaternion::normalise))]
    pub fn normalise(self) -> Quat
        ensures { result ≡ spec.normalise self }
    {
        let k = 1.0
            / root::root(self.x * self.x + self.y * self.y + self.z * self.z + self.w * self.w);
        Quat {
            x: self.x * k,
            y: self.y * k,
            z: self.z * k,
            w: self.w * k,
        }
    }

    #[tactic(auto, unfolding(crate::specs::Quaternion::to_matrix))]
    pub fn to_matrix(self) -> Mat3
        ensures { result ≡ spec.to_matrix self }
    {
        let x2 = self.x + self.x;
        let y2 = self.y + self.y;
        let z2 = self.z + self.z;
        Mat3 {
            x: Vec3 {
                x: 1.0 - (self.y * y2 + self.z * z2),
                y: self.x * y2 + self.w * z2,
                z: self.x * z2 - self.w * y2,
            },
            y: Vec3 {
                x: self.x * y2 - self.w * z2,
                y: 1.0 - (self.x * x2 + self.z * z2),
                z: self.y * z2 + self.w * x2,
            },
            z: Vec3 {
                x: self.x * z2 + self.w * y2,
                y: self.y * z2 - self.w * x2,
                z: 1.0 - (self.x * x2 + self.y * y2),
            },
        }
    }

    // The rotation about an axis of length 1, by the angle w.
    #[tactic(auto, unfolding(crate::specs::Quaternion::from_axis_angle))]
    pub fn from_axis_angle(axis: Vec3, w: f32) -> Quat
        ensures { result ≡ spec.from_axis_angle axis w }
    {
        let half = real::sin_cos(w);
        Quat {
            x: axis.x * half.s,
            y: axis.y * half.s,
            z: axis.z * half.s,
            w: half.c,
        }
    }
}
