// The values that stand in a record's words: a float is its bits, a matrix goes column by column. They are compared bit for bit:
// a NaN's word is 0x7FC00000.
ghost use Rattle.std.specs.Prelude.{◌≡◌, ℕ, ◌+◌, ◌*◌, ◌<◌, ◌≤◌, ◌&&◌, Bool, List, length, slice_index};
ghost use Rattle.real.specs.Float.{at};
ghost use Rattle.replay.specs.Words as spec;

use std::array::from_fn;
use vector::{Four, Mat3, Quat, Vec3};

// Of any words, where `floats::Field` asks for a NaN's one pattern. k is the number of a value's first word: `Record`'s two methods pass
// its bound on, and a type for it would be made and taken apart at each value.
pub trait InWords: Drop {
    ghost WORDS: { ℕ };

    ghost value_of: { List ℕ → ℕ → Self };

    ghost is_stored: { List ℕ → ℕ → Self → Bool };

    const WORDS: usize;

    // What the words from k on say.
    fn read(bytes: &[u8], k: usize) -> Self
        requires { 4 * (k + WORDS) ≤ length bytes.now }
        ensures { result ≡ value_of (spec.words_of bytes.now) k };

    // Whether it is what they say.
    fn is_at(&self, bytes: &[u8], k: usize) -> bool
        requires { 4 * (k + WORDS) ≤ length bytes.now }
        ensures { result ≡ is_stored (spec.words_of bytes.now) k self.now };
}

#[tactic(auto, using(crate::specs::Words::word_at))]
fn word(bytes: &[u8], k: usize) -> u32
    requires { 4 * (k + 1) ≤ length bytes.now }
    ensures { result ≡ slice_index (spec.words_of bytes.now) k }
{
    little_endian::get_u32(bytes, 4 * k)
}

impl InWords for f32 {
    ghost WORDS = { 1 };

    ghost value_of = { spec.float };

    ghost is_stored = { spec.float_is };

    const WORDS: usize = 1;

    fn read(bytes: &[u8], k: usize) -> f32 {
        little_endian::f32_of(word(bytes, k))
    }

    fn is_at(&self, bytes: &[u8], k: usize) -> bool {
        word(bytes, k) == little_endian::bits_of(*self)
    }
}

impl<const N: usize> InWords for [f32; N] {
    ghost WORDS = { N };

    ghost value_of = { spec.floats N };

    ghost is_stored = { spec.floats_are N };

    const WORDS: usize = N;

    #[tactic(auto, unfolding(crate::specs::Words::floats), using(loops::specs::Fill::tabulated))]
    fn read(bytes: &[u8], k: usize) -> [f32; N] {
        from_fn(|i| f32::read(bytes, k + i))
    }

    // By index: with `enumerate` the closure would need these clauses and one more, that x is part i.
    fn is_at(&self, bytes: &[u8], k: usize) -> bool {
        (0..N).all(
            |i: usize| -> bool
                requires { (i < N) × (4 * (k + i + 1) ≤ length bytes.now) }
                ensures { result ≡ spec.float_is (spec.words_of bytes.entry.now) (k + i) (at self.entry.now i) }
            { self[i].is_at(bytes, k + i) },
        )
    }
}

impl InWords for Vec3 {
    ghost WORDS = { 3 };

    ghost value_of = { spec.vec3 };

    ghost is_stored = { spec.vec3_is };

    const WORDS: usize = 3;

    fn read(bytes: &[u8], k: usize) -> Vec3 {
        Vec3 {
            x: f32::read(bytes, k),
            y: f32::read(bytes, k + 1),
            z: f32::read(bytes, k + 2),
        }
    }

    fn is_at(&self, bytes: &[u8], k: usize) -> bool {
        self.x.is_at(bytes, k) && self.y.is_at(bytes, k + 1) && self.z.is_at(bytes, k + 2)
    }
}

impl InWords for Quat {
    ghost WORDS = { 4 };

    ghost value_of = { spec.quat };

    ghost is_stored = { spec.quat_is };

    const WORDS: usize = 4;

    fn read(bytes: &[u8], k: usize) -> Quat {
        Quat {
            x: f32::read(bytes, k),
            y: f32::read(bytes, k + 1),
            z: f32::read(bytes, k + 2),
            w: f32::read(bytes, k + 3),
        }
    }

    fn is_at(&self, bytes: &[u8], k: usize) -> bool {
        self.x.is_at(bytes, k)
            && self.y.is_at(bytes, k + 1)
            && self.z.is_at(bytes, k + 2)
            && self.w.is_at(bytes, k + 3)
    }
}

impl InWords for Mat3 {
    ghost WORDS = { 9 };

    ghost value_of = { spec.mat3 };

    ghost is_stored = { spec.mat3_is };

    const WORDS: usize = 9;

    fn read(bytes: &[u8], k: usize) -> Mat3 {
        Mat3 {
            x: Vec3::read(bytes, k),
            y: Vec3::read(bytes, k + 3),
            z: Vec3::read(bytes, k + 6),
        }
    }

    fn is_at(&self, bytes: &[u8], k: usize) -> bool {
        self.x.is_at(bytes, k) && self.y.is_at(bytes, k + 3) && self.z.is_at(bytes, k + 6)
    }
}

impl InWords for Four<Vec3> {
    ghost WORDS = { 12 };

    ghost value_of = { spec.four };

    ghost is_stored = { spec.four_are };

    const WORDS: usize = 12;

    fn read(bytes: &[u8], k: usize) -> Four<Vec3> {
        Four {
            a: Vec3::read(bytes, k),
            b: Vec3::read(bytes, k + 3),
            c: Vec3::read(bytes, k + 6),
            d: Vec3::read(bytes, k + 9),
        }
    }

    fn is_at(&self, bytes: &[u8], k: usize) -> bool {
        self.a.is_at(bytes, k)
            && self.b.is_at(bytes, k + 3)
            && self.c.is_at(bytes, k + 6)
            && self.d.is_at(bytes, k + 9)
    }
}
