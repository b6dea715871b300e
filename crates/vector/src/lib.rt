// Vectors here, 3x3 matrices and quaternions in modules: structs of floats, by value, with the operators and methods that the Rust source
// uses. Each part is computed in the source's order.
#![tactic(auto)]

pub mod matrix; // 3x3 matrices by columns
pub mod quaternion; // rotations

ghost use Rattle.std.specs.Prelude.{◌≡◌};
ghost use Rattle.vector.specs.Vector as spec;

use std::ops::{Add, Div, Mul, Neg, Sub};

#[repr(C)]
#[derive(Clone, Copy)]
pub struct Vec3 {
    pub x: f32,
    pub y: f32,
    pub z: f32,
}

// A value for each of the four particles that a row can name, particle 0 first. By fields, as the rules have them: of a `[T; 4]` each would
// be an index, and the contracts of the array's own `map` speak of lists.
#[derive(Clone, Copy)]
pub struct Four<T> {
    pub a: T,
    pub b: T,
    pub c: T,
    pub d: T,
}

// Three columns.
#[repr(C)]
#[derive(Clone, Copy)]
pub struct Mat3 {
    pub x: Vec3,
    pub y: Vec3,
    pub z: Vec3,
}

// The real part is w.
#[repr(C)]
#[derive(Clone, Copy)]
pub struct Quat {
    pub x: f32,
    pub y: f32,
    pub z: f32,
    pub w: f32,
}

impl<T: Copy> Four<T> {
    // The same value four times.
    pub fn splat(value: T) -> Four<T>
        ensures { result ≡ spec.splat value }
    {
        Four {
            a: value,
            b: value,
            c: value,
            d: value,
        }
    }

    // What f makes of each.
    pub fn map<U, F: Fn(T) -> U>(self, f: F) -> Four<U>
        requires { F.IsAlwaysCallable f }
        ensures { (F.post f self.a result.a) × (F.post f self.b result.b) × (F.post f self.c result.c) × (F.post f self.d result.d) }
    {
        Four {
            a: f(self.a),
            b: f(self.b),
            c: f(self.c),
            d: f(self.d),
        }
    }

    // What f makes of each with its like in `other`.
    pub fn zip<U: Copy, V, F: Fn(T, U) -> V>(self, other: Four<U>, f: F) -> Four<V>
        requires { F.IsAlwaysCallable f }
        ensures { (F.post f self.a other.a result.a) × (F.post f self.b other.b result.b)
            × (F.post f self.c other.c result.c) × (F.post f self.d other.d result.d) }
    {
        Four {
            a: f(self.a, other.a),
            b: f(self.b, other.b),
            c: f(self.c, other.c),
            d: f(self.d, other.d),
        }
    }

    // What f makes of them one after another, from `init` on.
    pub fn fold<A, F: Fn(A, T) -> A>(self, init: A, f: F) -> A
        requires { F.IsAlwaysCallable f }
        ensures { spec.Folded (F.post f) init self result }
    {
        f(f(f(f(init, self.a), self.b), self.c), self.d)
    }
}

impl Vec3 {
    #[tactic(auto, unfolding(crate::specs::Vector::zero_vector))]
    pub fn zero() -> Vec3
        ensures { result ≡ spec.zero_vector }
    {
        Vec3 {
            x: 0.0,
            y: 0.0,
            z: 0.0,
        }
    }

    #[tactic(auto, unfolding(crate::specs::Vector::dot))]
    pub fn dot(self, b: Vec3) -> f32
        ensures { result ≡ spec.dot self b }
    {
        self.x * b.x + self.y * b.y + self.z * b.z
    }

    #[tactic(auto, unfolding(crate::specs::Vector::cross))]
    pub fn cross(self, b: Vec3) -> Vec3
        ensures { result ≡ spec.cross self b }
    {
        Vec3 {
            x: self.y * b.z - b.y * self.z,
            y: self.z * b.x - b.z * self.x,
            z: self.x * b.y - b.x * self.y,
        }
    }

    #[tactic(auto, unfolding(crate::specs::Vector::element_sum))]
    pub fn element_sum(self) -> f32
        ensures { result ≡ spec.element_sum self }
    {
        self.x + self.y + self.z
    }

    #[tactic(auto, unfolding(crate::specs::Vector::length_squared))]
    pub fn length_squared(self) -> f32
        ensures { result ≡ spec.length_squared self }
    {
        self.dot(self)
    }

    #[tactic(auto, unfolding(crate::specs::Vector::length_of))]
    pub fn length(self) -> f32
        ensures { result ≡ spec.length_of self }
    {
        root::root(self.dot(self))
    }
}

impl Add for Vec3 {
    type Output = Vec3;

    ghost add_gives = { λ a b r. r ≡ spec.add a b };

    #[tactic(auto, unfolding(crate::specs::Vector::add))]
    fn add(self, b: Vec3) -> Vec3 {
        Vec3 {
            x: self.x + b.x,
            y: self.y + b.y,
            z: self.z + b.z,
        }
    }
}

impl Sub for Vec3 {
    type Output = Vec3;

    ghost sub_gives = { λ a b r. r ≡ spec.sub a b };

    #[tactic(auto, unfolding(crate::specs::Vector::sub))]
    fn sub(self, b: Vec3) -> Vec3 {
        Vec3 {
            x: self.x - b.x,
            y: self.y - b.y,
            z: self.z - b.z,
        }
    }
}

impl Neg for Vec3 {
    type Output = Vec3;

    ghost neg_gives = { λ a r. r ≡ spec.neg a };

    #[tactic(auto, unfolding(crate::specs::Vector::neg))]
    fn neg(self) -> Vec3 {
        Vec3 {
            x: -self.x,
            y: -self.y,
            z: -self.z,
        }
    }
}

impl Mul<f32> for Vec3 {
    type Output = Vec3;

    ghost mul_gives = { λ a k r. r ≡ spec.scale a k };

    #[tactic(auto, unfolding(crate::specs::Vector::scale))]
    fn mul(self, k: f32) -> Vec3 {
        Vec3 {
            x: self.x * k,
            y: self.y * k,
            z: self.z * k,
        }
    }
}

impl Div<f32> for Vec3 {
    type Output = Vec3;

    ghost div_gives = { λ a k r. r ≡ spec.divide a k };

    #[tactic(auto, unfolding(crate::specs::Vector::divide))]
    fn div(self, k: f32) -> Vec3 {
        Vec3 {
            x: self.x / k,
            y: self.y / k,
            z: self.z / k,
        }
    }
}
