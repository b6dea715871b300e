// The struct of the C interface that stands for a generic type, which C has not: with the fields of that type, in its order.
#![tactic(auto)]

ghost use Rattle.std.specs.Prelude.{◌≡◌};
ghost use Rattle.c_types.specs.FourVectors.{as_four};

use vector::{Four, Vec3};

// A vector for each of the four particles of a row, particle 0 first.
#[repr(C)]
#[derive(Clone, Copy)]
pub struct FourVectors {
    pub a: Vec3,
    pub b: Vec3,
    pub c: Vec3,
    pub d: Vec3,
}

// The same vector. Copied as a whole, its twelve bytes go in two pieces, and who reads four floats at once waits for both:
// `rt_scalar_compute_gradients` took 83 ns for a distance, part by part 55.
#[inline(always)]
fn part_by_part(v: Vec3) -> Vec3
    ensures { result ≡ v }
{
    Vec3 {
        x: v.x,
        y: v.y,
        z: v.z,
    }
}

impl From<FourVectors> for Four<Vec3> {
    ghost from_gives = { λ x r. r ≡ as_four x };

    fn from(x: FourVectors) -> Four<Vec3> {
        Four {
            a: part_by_part(x.a),
            b: part_by_part(x.b),
            c: part_by_part(x.c),
            d: part_by_part(x.d),
        }
    }
}

impl From<Four<Vec3>> for FourVectors {
    ghost from_gives = { λ x r. as_four r ≡ x };

    fn from(x: Four<Vec3>) -> FourVectors {
        FourVectors {
            a: part_by_part(x.a),
            b: part_by_part(x.b),
            c: part_by_part(x.c),
            d: part_by_part(x.d),
        }
    }
}
