// Vectors, matrices and lists of floats at a byte of a record, read and put in place.
#![tactic(auto)]

ghost use Rattle.std.specs.Prelude.{◌≡◌, ℕ, ◌+◌, ◌*◌, ◌%◌, ◌≤◌, List, Float, length, refl};
ghost use Rattle.std.specs.Float.{binary32};
ghost use Rattle.std.specs.Float.Ieee.{of_bits};
ghost use Rattle.little_endian.specs.Bytes.{f32_at};
ghost use Rattle.floats.specs.Fields as spec;
ghost use Rattle.floats.specs.Written.{Written, Reads, Stays};

pub mod row_bytes;

use little_endian::{get_f32, get_u32};
use places::Ids;
use std::array::from_fn;
use vector::{Four, Mat3, Quat, Vec3};

// ---- read from any bytes

// The vector of a point. Beside `Field::get`, since a point's floats may be of any pattern.
#[tactic(auto, unfolding(crate::specs::Fields::vec3_at))]
pub fn vec3_at(b: &[u8], k: usize) -> Vec3
    requires { k + 12 ≤ length b.now }
    ensures { result ≡ spec.vec3_at b.now k }
{
    Vec3 {
        x: get_f32(b, k),
        y: get_f32(b, k + 4),
        z: get_f32(b, k + 8),
    }
}

// The ids of a row: numbers, so that nothing is asked of their bytes.
#[tactic(auto, unfolding(crate::specs::Fields::ids_at))]
pub fn ids_at(b: &[u8], k: usize) -> Ids
    requires { k + 16 ≤ length b.now }
    ensures { result ≡ spec.ids_at b.now k }
{
    Four {
        a: get_u32(b, k),
        b: get_u32(b, k + 4),
        c: get_u32(b, k + 8),
        d: get_u32(b, k + 12),
    }
}

// ---- a row's record. Its floats are as they are put: of a NaN's patterns there is one.

// What stands in a row's record as one float after another.
pub trait Field: Copy {
    ghost floats: { ℕ };

    ghost read: { List ℕ → ℕ → Self };

    ghost after: { List ℕ → ℕ → Self → List ℕ };

    fn get(b: &[u8], k: usize) -> Self
        requires { Reads (4 * floats) k b.now }
        ensures { result ≡ read b.now k };

    // What the record then holds is still as floats are put.
    fn put(self, b: &mut [u8], k: usize)
        requires { k + 4 * floats ≤ length b.old }
        ensures { (b.new ≡ after b.old k self) × Stays k b.old b.new };
}

// A field of which several stand one after another.
// Not a const of `Field`: of a `Four` it would be `4 * T::FLOATS`, and no clause can say of each T that this fits a usize.
pub trait Element: Field {
    ghost FLOATS: { ℕ };

    const FLOATS: usize;

    ghost counted: { Self.floats ≡ FLOATS };
}

// The one pattern of a NaN's that is written.
pub const NAN: u32 = 0x7fc0_0000;

// A test for a NaN's one pattern gives what is there already, so that nothing is left of it in the program. With the library's
// `f32_from_bits_with_nan`, which tests for all patterns, a scalar row took 21.5 ns for 17.0.
fn of_written(n: u32) -> f32
    requires { Written n }
    ensures { result ≡ of_bits binary32 n }
{
    if n == NAN {
        return f32::NAN;
    }
    f32::from_bits(n)
}

impl Field for f32 {
    ghost floats = { 1 };

    ghost read = { f32_at };

    ghost after = { spec.put_f32 };

    fn get(b: &[u8], k: usize) -> f32 {
        of_written(get_u32(b, k))
    }

    fn put(self, b: &mut [u8], k: usize) {
        little_endian::put_f32(b, k, self);
    }
}

impl Element for f32 {
    ghost FLOATS = { Self.floats };

    const FLOATS: usize = 1;

    ghost counted = { refl };
}

impl Field for Vec3 {
    ghost floats = { 3 };

    ghost read = { spec.vec3_at };

    ghost after = { spec.put_vec3 };

    #[tactic(auto, unfolding(crate::specs::Fields::vec3_at))]
    fn get(b: &[u8], k: usize) -> Vec3 {
        Vec3 {
            x: f32::get(b, k),
            y: f32::get(b, k + 4),
            z: f32::get(b, k + 8),
        }
    }

    #[tactic(auto, unfolding(crate::specs::Fields::put_vec3))]
    fn put(self, b: &mut [u8], k: usize) {
        let Vec3 { x, y, z } = self;
        x.put(b, k);
        y.put(b, k + 4);
        z.put(b, k + 8);
    }
}

impl Element for Vec3 {
    ghost FLOATS = { Self.floats };

    const FLOATS: usize = 3;

    ghost counted = { refl };
}

impl Field for Mat3 {
    ghost floats = { 9 };

    ghost read = { spec.mat3_at };

    ghost after = { spec.put_mat3 };

    #[tactic(auto, unfolding(crate::specs::Fields::mat3_at))]
    fn get(b: &[u8], k: usize) -> Mat3 {
        Mat3 {
            x: Vec3::get(b, k),
            y: Vec3::get(b, k + 12),
            z: Vec3::get(b, k + 24),
        }
    }

    #[tactic(auto, unfolding(crate::specs::Fields::put_mat3))]
    fn put(self, b: &mut [u8], k: usize) {
        self.x.put(b, k);
        self.y.put(b, k + 12);
        self.z.put(b, k + 24);
    }
}

impl Field for Quat {
    ghost floats = { 4 };

    ghost read = { spec.quat_at };

    ghost after = { spec.put_quat };

    #[tactic(auto, unfolding(crate::specs::Fields::quat_at))]
    fn get(b: &[u8], k: usize) -> Quat {
        Quat {
            x: f32::get(b, k),
            y: f32::get(b, k + 4),
            z: f32::get(b, k + 8),
            w: f32::get(b, k + 12),
        }
    }

    #[tactic(auto, unfolding(crate::specs::Fields::put_quat))]
    fn put(self, b: &mut [u8], k: usize) {
        self.x.put(b, k);
        self.y.put(b, k + 4);
        self.z.put(b, k + 8);
        self.w.put(b, k + 12);
    }
}

impl<T: Element> Field for Four<T> {
    ghost floats = { 4 * T.floats };

    ghost read = { spec.four_of T.read (4 * T.floats) };

    ghost after = { spec.put_four_of T.after (4 * T.floats) };

    fn get(b: &[u8], k: usize) -> Four<T> {
        let w = 4 * T::FLOATS;
        Four {
            a: T::get(b, k),
            b: T::get(b, k + w),
            c: T::get(b, k + 2 * w),
            d: T::get(b, k + 3 * w),
        }
    }

    fn put(self, b: &mut [u8], k: usize) {
        let w = 4 * T::FLOATS;
        self.a.put(b, k);
        self.b.put(b, k + w);
        self.c.put(b, k + 2 * w);
        self.d.put(b, k + 3 * w);
    }
}

impl<const N: usize> Field for [f32; N] {
    ghost floats = { N };

    ghost read = { spec.floats_at N };

    ghost after = { spec.put_floats N };

    fn get(b: &[u8], k: usize) -> [f32; N] {
        from_fn(|i| f32::get(b, k + 4 * i))
    }

    fn put(self, b: &mut [u8], k: usize) {
        for (i, x) in self.iter().enumerate() {
            x.put(b, k + 4 * i);
        }
    }
}
