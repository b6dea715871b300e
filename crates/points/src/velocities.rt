// The velocities set apart: a vector for each point of a frame, so that a sweep reads and writes no bytes for them.
ghost use Rattle.std.specs.Prelude.{◌≡◌, ◌+◌, ◌*◌, ◌≤◌, ◌<◌, length};
ghost use Rattle.points.specs.Apart.{velocity_at, vec_of, moved, Apart, Calm, held_of, holds_of, lost_at, lost, FitAt, FitOf};

use crate::{named, place_of};
use floats::Field;
use places::{Holds, Ids};
use records::layout;
use vector::{Four, Vec3};

// Where the velocity of point i is.
fn velocity_at(i: usize) -> usize
    requires { i ≤ 4096 }
    ensures { result ≡ velocity_at i }
{
    place_of(i) + layout::POINT_VELOCITY
}

// Takes those of as many points as v has out of the frame.
// `Points` holds these bounds of a frame that is only read; here and in `scatter` the frame or v is altered.
pub fn gather(s: &[u8], v: &mut [Vec3])
    requires { (length v.old ≤ 4096) × (26 + 30 * length v.old ≤ length s.now) }
    ensures apart { Apart (length v.old) s.now v.new }
    ensures same { Calm (length v.old) s.now → moved (length v.old) v.new s.now ≡ s.now }
{
    for (i, x) in v.iter_mut().enumerate() {
        *x = floats::vec3_at(s, velocity_at(i));
    }
}

// Puts them back.
pub fn scatter(v: &[Vec3], s: &mut [u8])
    requires { (length v.now ≤ 4096) × (26 + 30 * length v.now ≤ length s.old) }
    ensures { s.new ≡ moved (length v.now) v.now s.old }
{
    for (i, x) in v.iter().enumerate() {
        x.put(s, velocity_at(i));
    }
}

#[tactic(auto, unfolding(crate::specs::Apart::held_of))]
fn held(v: &[Vec3], id: u32) -> Option<Vec3>
    ensures { result ≡ held_of (length v.now) v.now id }
{
    // `as`, here and below: usize has no `From` of u32.
    let x = v.get(id as usize).copied().unwrap_or(Vec3::zero());
    named(id, x)
}

// Those of a row's places.
#[tactic(auto, unfolding(crate::specs::Apart::holds_of))]
pub fn of(v: &[Vec3], i: Ids) -> Holds
    ensures { result ≡ holds_of (length v.now) v.now i }
{
    i.map(|id| held(v, id))
}

// A result's type says that its three floats are f32, which the proof of `take_at` needs; of a slice's element no clause says it.
fn read(v: &[Vec3], i: usize) -> Vec3
    requires { i < length v.now }
    ensures { result ≡ vec_of v.now i }
{
    v[i]
}

#[tactic(auto, unfolding(crate::specs::Apart::lost_at))]
fn take_at(v: &mut [Vec3], id: u32, x: Vec3)
    ensures lost { v.new ≡ lost_at (length v.old) v.old id x }
    ensures fit { FitAt (length v.old) v.old id }
{
    let i = id as usize;
    // By index: the contract of `get_mut` does not say what the slice holds after it.
    if i < v.len() {
        v[i] = read(v, i) - x;
    }
}

// What each place of a row loses, place after place: a row may name one point twice. Four calls: a `for`
// over four pairs would be no shorter, and a closure would have to say what is left of v after each.
#[tactic(auto, unfolding(crate::specs::Apart::lost))]
pub fn take(v: &mut [Vec3], i: Ids, x: Four<Vec3>)
    ensures lost { v.new ≡ lost (length v.old) v.old i x }
    ensures fit { FitOf (length v.old) v.old i }
{
    take_at(v, i.a, x.a);
    take_at(v, i.b, x.b);
    take_at(v, i.c, x.c);
    take_at(v, i.d, x.d);
}
