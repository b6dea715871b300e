// What C passes and is passed: structs of C for the generic types and options of the row functions.
ghost use Rattle.std.specs.Prelude.{◌≡◌};
ghost use Rattle.rows_ffi.specs.Mirrors.{as_held, as_holds, as_lost, lost_of, as_gradients};

use c_types::FourVectors;
use vector::{Four, Vec3};

// What a place holds, where it is named. C has no Option.
#[repr(C)]
#[derive(Clone, Copy)]
pub struct Held {
    pub named: bool,
    pub value: Vec3,
}

#[repr(C)]
#[derive(Clone, Copy)]
pub struct Holds {
    pub a: Held,
    pub b: Held,
    pub c: Held,
    pub d: Held,
}

// A row's gradients and its error.
#[repr(C)]
#[derive(Clone, Copy)]
pub struct Gradients {
    pub grad: FourVectors,
    pub error: f32,
}

// What each place is to lose, where the bytes are a row's record; zeros otherwise. C has no Option.
#[repr(C)]
#[derive(Clone, Copy)]
pub struct Lost {
    pub done: bool,
    pub loss: FourVectors,
}

impl From<Held> for Option<Vec3> {
    ghost from_gives = { λ x r. r ≡ as_held x };

    fn from(x: Held) -> Option<Vec3> {
        x.named.then_some(x.value)
    }
}

impl From<Holds> for Four<Option<Vec3>> {
    ghost from_gives = { λ x r. r ≡ as_holds x };

    fn from(x: Holds) -> Four<Option<Vec3>> {
        Four {
            a: x.a.into(),
            b: x.b.into(),
            c: x.c.into(),
            d: x.d.into(),
        }
    }
}

impl From<gradients::Gradients> for Gradients {
    ghost from_gives = { λ x r. as_gradients r ≡ x };

    fn from(x: gradients::Gradients) -> Gradients {
        Gradients {
            grad: x.grad.into(),
            error: x.error,
        }
    }
}

impl From<Option<Four<Vec3>>> for Lost {
    ghost from_gives = { λ x r. as_lost r ≡ lost_of x };

    fn from(x: Option<Four<Vec3>>) -> Lost {
        Lost {
            done: x.is_some(),
            loss: x.unwrap_or(Four::splat(Vec3::zero())).into(),
        }
    }
}
