// The angle between the triangles (0, 1, 2) and (0, 1, 3), and its gradients.
ghost use Rattle.std.specs.Prelude.{◌≡◌};
ghost use Rattle.gradients.specs.Dihedral as spec;

use crate::{Fold, Gradients};
use real::{acos, clamp, pick};
use vector::{Four, Vec3};

#[tactic(auto, unfolding(crate::specs::Dihedral::lean))]
fn lean(p: Vec3, n: Vec3, m: Vec3, d: f32) -> Vec3
    ensures { result ≡ spec.lean p n m d }
{
    p.cross(n) + m.cross(p) * d
}

impl Fold {
    #[tactic(auto, unfolding(crate::specs::Dihedral::fold_of))]
    fn of(pos: Four<Vec3>) -> Fold
        ensures { result ≡ spec.fold_of pos }
    {
        let p1 = pos.b - pos.a;
        let p2 = pos.c - pos.a;
        let p3 = pos.d - pos.a;
        let m1 = p1.cross(p2);
        let m2 = p1.cross(p3);
        let l1 = m1.length();
        let l2 = m2.length();
        Fold {
            p1,
            p2,
            p3,
            n1: m1 / l1,
            n2: m2 / l2,
            l1,
            l2,
        }
    }

    #[tactic(auto, unfolding(crate::specs::Dihedral::q2))]
    fn q2(self, d: f32) -> Vec3
        ensures { result ≡ spec.q2 self d }
    {
        -lean(self.p2, self.n2, self.n1, d) / self.l1 - lean(self.p3, self.n1, self.n2, d) / self.l2
    }

    #[tactic(auto, unfolding(crate::specs::Dihedral::qs))]
    fn qs(self, d: f32) -> Four<Vec3>
        ensures { result ≡ spec.qs self d }
    {
        let q3 = lean(self.p1, self.n2, self.n1, d) / self.l1;
        let q4 = lean(self.p1, self.n1, self.n2, d) / self.l2;
        let q2 = self.q2(d);
        Four {
            a: -q2 - q3 - q4,
            b: q2,
            c: q3,
            d: q4,
        }
    }

    // Of triangles with an area.
    #[tactic(auto, unfolding(crate::specs::Dihedral::bent, crate::specs::Dihedral::scale_four, crate::specs::Dihedral::no_gradients))]
    fn bent(self, rest: f32) -> Gradients
        ensures { result ≡ spec.bent self rest }
    {
        let d = clamp(self.n1.dot(self.n2), -1.0, 1.0);
        let sin = root::root(1.0 - d * d);
        let scale = 1.0 / sin;
        let grad = self.qs(d).map(|q| q * scale);
        Gradients {
            grad: pick(sin < 1.0e-6, Four::splat(Vec3::zero()), grad),
            error: acos(d) - rest,
        }
    }
}

#[tactic(auto, unfolding(crate::specs::Dihedral::dihedral_gradients, crate::specs::Dihedral::no_gradients))]
pub fn dihedral_gradients(pos: Four<Vec3>, rest: f32) -> Gradients
    ensures { result ≡ spec.dihedral_gradients pos rest }
{
    let f = Fold::of(pos);
    if f.l1 < 1.0e-9 || f.l2 < 1.0e-9 {
        return Gradients {
            grad: Four::splat(Vec3::zero()),
            error: 0.0,
        };
    }
    f.bent(rest)
}
