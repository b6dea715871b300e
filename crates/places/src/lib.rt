// The four places of a row: their ids, what each holds, and their inverse masses.
#![tactic(auto)]

ghost use Rattle.std.specs.Prelude.{◌≡◌};
ghost use Rattle.places.specs.Places as spec;

use vector::{Four, Vec3};

// What the places hold: positions or velocities. A place that is not named (its id is NOBODY, or it lies past a scalar row's count)
// holds none, and is skipped.
pub type Holds = Four<Option<Vec3>>;

// The ids of the four places.
pub type Ids = Four<u32>;

// The id of a place that names no point. It is the frame's own number, which the rules compare as one: so it is no Option.
pub const NOBODY: u32 = 0xffff_ffff;

// The inverse masses of the four places.
pub type Masses = Four<f32>;

// What a warm start or a solve makes: a row's state anew, and what each place is to lose.
#[derive(Clone, Copy)]
pub struct Solved<T> {
    pub state: T,
    pub loss: Four<Vec3>,
}

#[tactic(auto, unfolding(crate::specs::Places::refreshed))]
pub fn refreshed(h: Holds, pos: Four<Vec3>) -> Four<Vec3>
    ensures { result ≡ spec.refreshed h pos }
{
    h.zip(pos, |held, old| held.unwrap_or(old))
}

fn rate_at(grad: Vec3, vel: Option<Vec3>) -> Option<f32>
    ensures { result ≡ spec.rate_at grad vel }
{
    vel.map(|v| grad.dot(v))
}

// The sum goes on where there is a rate.
fn plus(sum: f32, rate: Option<f32>) -> f32
    ensures { result ≡ spec.plus sum rate }
{
    rate.map_or(sum, |r| sum + r)
}

// The rate at which the velocities of the named places change what has these gradients. The products come first, which leaves no branch
// around them.
#[tactic(auto, unfolding(crate::specs::Places::rate_of))]
pub fn rate_of(grad: Four<Vec3>, vel: Holds) -> f32
    ensures { result ≡ spec.rate_of grad vel }
{
    grad.zip(vel, rate_at).fold(0.0, plus)
}
