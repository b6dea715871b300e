// 3x3 matrices by columns.
ghost use Rattle.std.specs.Prelude.{◌≡◌};
ghost use Rattle.vector.specs.Matrix as spec;

use crate::{Mat3, Vec3};
use std::ops::{Add, Mul, Sub};

impl Mat3 {
    #[tactic(auto, unfolding(crate::specs::Matrix::identity))]
    pub fn identity() -> Mat3
        ensures { result ≡ spec.identity }
    {
        Mat3 {
            x: Vec3 {
                x: 1.0,
                y: 0.0,
                z: 0.0,
            },
            y: Vec3 {
                x: 0.0,
                y: 1.0,
                z: 0.0,
            },
            z: Vec3 {
                x: 0.0,
                y: 0.0,
                z: 1.0,
            },
        }
    }

    #[tactic(auto, unfolding(crate::specs::Matrix::transpose))]
    pub fn transpose(self) -> Mat3
        ensures { result ≡ spec.transpose self }
    {
        Mat3 {
            x: Vec3 {
                x: self.x.x,
                y: self.y.x,
                z: self.z.x,
            },
            y: Vec3 {
                x: self.x.y,
                y: self.y.y,
                z: self.z.y,
            },
            z: Vec3 {
                x: self.x.z,
                y: self.y.z,
                z: self.z.z,
            },
        }
    }

    #[tactic(auto, unfolding(crate::specs::Matrix::determinant))]
    pub fn determinant(self) -> f32
        ensures { result ≡ spec.determinant self }
    {
        self.z.dot(self.x.cross(self.y))
    }
}

impl Add for Mat3 {
    type Output = Mat3;

    ghost add_gives = { λ m n r. r ≡ spec.add_mat m n };

    #[tactic(auto, unfolding(crate::specs::Matrix::add_mat))]
    fn add(self, n: Mat3) -> Mat3 {
        Mat3 {
            x: self.x + n.x,
            y: self.y + n.y,
            z: self.z + n.z,
        }
    }
}

impl Sub for Mat3 {
    type Output = Mat3;

    ghost sub_gives = { λ m n r. r ≡ spec.sub_mat m n };

    #[tactic(auto, unfolding(crate::specs::Matrix::sub_mat))]
    fn sub(self, n: Mat3) -> Mat3 {
        Mat3 {
            x: self.x - n.x,
            y: self.y - n.y,
            z: self.z - n.z,
        }
    }
}

impl Mul<f32> for Mat3 {
    type Output = Mat3;

    ghost mul_gives = { λ m k r. r ≡ spec.scale_mat m k };

    #[tactic(auto, unfolding(crate::specs::Matrix::scale_mat))]
    fn mul(self, k: f32) -> Mat3 {
        Mat3 {
            x: self.x * k,
            y: self.y * k,
            z: self.z * k,
        }
    }
}

impl Mul<Vec3> for Mat3 {
    type Output = Vec3;

    ghost mul_gives = { λ m v r. r ≡ spec.mul_vec m v };

    #[tactic(auto, unfolding(crate::specs::Matrix::mul_vec))]
    fn mul(self, v: Vec3) -> Vec3 {
        self.x * v.x + self.y * v.y + self.z * v.z
    }
}

impl Mul for Mat3 {
    type Output = Mat3;

    ghost mul_gives = { λ m n r. r ≡ spec.mul_mat m n };

    #[tactic(auto, unfolding(crate::specs::Matrix::mul_mat))]
    fn mul(self, n: Mat3) -> Mat3 {
        Mat3 {
            x: self * n.x,
            y: self * n.y,
            z: self * n.z,
        }
    }
}
