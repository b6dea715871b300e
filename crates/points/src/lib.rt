// Points in a frame: fetching what the places of a row hold, and taking from them. The velocities are set apart for the time of the sweeps.
// This crate alone knows where a point lies.
#![tactic(auto)]

pub mod velocities;

ghost use Rattle.std.specs.Prelude.{◌≡◌, ℕ, ◌+◌, ◌*◌, ◌≤◌, ◌<◌, length};
ghost use Rattle.stored.specs.Points.{position};
ghost use Rattle.points.specs.InFrame.{place_of, point_in, named, held_in, holds_in};

use places::{Holds, Ids, NOBODY};
use records::layout;
use vector::Vec3;

// Where the record of point i starts. The bound, here and in `velocity_at`, is the index's own: a type for it would be taken apart here.
fn place_of(i: usize) -> usize
    requires { i ≤ 4096 }
    ensures { result ≡ place_of i }
{
    layout::HEAD_END + layout::POINT_END * i
}

// What a place holds: nothing where it is not named.
fn named(id: u32, x: Vec3) -> Option<Vec3>
    ensures { result ≡ named id x }
{
    (id != NOBODY).then_some(x)
}

// The first `count` points of a frame.
#[derive(Clone, Copy)]
pub struct Points<'a> {
    pub frame: &'a [u8],
    pub count: usize,
    pub ghost few: { count ≤ 4096 },
    pub ghost room: { 26 + 30 * count ≤ length frame.now },
}

impl<'a> Points<'a> {
    // The bytes of point i.
    fn point(self, i: usize) -> &'a [u8]
        requires { i < self.count }
        ensures { (result.now ≡ point_in self.entry.frame.now i) × (length result.now ≡ 30) }
    {
        let off = place_of(i);
        &self.frame[off..off + layout::POINT_END]
    }

    // As `velocities::held`, over bytes: of one function for both, with a closure for the reading, the closures' clauses would be longer.
    #[tactic(auto, unfolding(crate::specs::InFrame::held_in, stored::specs::Points::position))]
    fn position(self, id: u32) -> Option<Vec3>
        ensures { result ≡ held_in position self.entry.count self.entry.frame.now id }
    {
        let i = id as usize; // usize has no `From` of u32
        let x = if i < self.count {
            floats::vec3_at(self.point(i), layout::POINT_POSITION)
        } else {
            Vec3::zero()
        };
        named(id, x)
    }

    // Those of a row's places.
    #[tactic(auto, unfolding(crate::specs::InFrame::holds_in))]
    pub fn positions(self, i: Ids) -> Holds
        ensures { result ≡ holds_in position self.entry.count self.entry.frame.now i }
    {
        i.map(|id| self.position(id))
    }
}
