// The scalar row of soft_scalar_constraint.rs: its update, its warm start, its solve and the test for strain. No row function sees a frame:
// what the row's places hold goes in, and what each is to lose comes out.
#![tactic(auto)]

ghost use Rattle.std.specs.Prelude.{◌≡◌};
ghost use Rattle.scalar.specs.Row as spec;

use gradients::ScalarKind;
use places::{Holds, Masses, Solved};
use real::{abs, clamp, inv, max, pick};
use vector::{Four, Vec3};

// What no step alters.
#[repr(C)]
#[derive(Clone, Copy)]
pub struct Spring {
    pub rest: f32,
    pub erp_inv_dt: f32,
    pub cfm_coeff: f32,
    pub lower: f32,
    pub upper: f32,
}

// What the steps assign.
#[repr(C)]
#[derive(Clone, Copy)]
pub struct Response {
    pub inv_lhs: f32,
    pub cfm_gain: f32,
    pub rhs: f32,
    pub impulse: f32,
    pub peak_impulse: f32,
}

// `kind` and `count` are the record's own numbers: what the row constrains goes by `ScalarKind::from`, and the row names its first `count`
// places, which an update compares.
#[repr(C)]
#[derive(Clone, Copy)]
pub struct SoftScalarConstraint {
    pub kind: u32,
    pub count: u32,
    pub pos: Four<Vec3>,
    pub im: Masses,
    pub grad: Four<Vec3>,
    pub spring: Spring,
    pub response: Response,
}

// ---- update

// The sum goes on where the place is counted. Both sides are computed: no operation on floats traps, and there is no branch.
fn weigh(count: u32, k: u32, g: Vec3, im: f32, w: f32) -> f32
    ensures { result ≡ spec.weigh count k g im w }
{
    pick(k < count, w + g.dot(g * im), w)
}

// Not by `Four::fold`: which place it is goes into each step.
#[tactic(auto, unfolding(crate::specs::Row::weight_of))]
fn weight_of(count: u32, grad: Four<Vec3>, im: Masses) -> f32
    ensures { result ≡ spec.weight_of count grad im }
{
    let a = weigh(count, 0, grad.a, im.a, 0.0);
    let b = weigh(count, 1, grad.b, im.b, a);
    let c = weigh(count, 2, grad.c, im.c, b);
    weigh(count, 3, grad.d, im.d, c)
}

impl Response {
    // For the effective mass w and the row's error e.
    #[tactic(auto, unfolding(crate::specs::Row::respond))]
    fn respond(self, p: Spring, w: f32, e: f32) -> Response
        ensures { result ≡ spec.respond p self w e }
    {
        let gain = w * p.cfm_coeff;
        Response {
            inv_lhs: inv(w + gain),
            cfm_gain: gain,
            rhs: e * p.erp_inv_dt,
            ..self
        }
    }
}

impl SoftScalarConstraint {
    #[tactic(auto, unfolding(crate::specs::Row::update))]
    pub fn update(self, held: Holds) -> SoftScalarConstraint
        ensures { result ≡ spec.update self held }
    {
        let pos = places::refreshed(held, self.pos);
        let g = gradients::gradient::compute_gradients(self.kind, pos, self.grad, self.spring.rest);
        let w = weight_of(self.count, g.grad, self.im);
        SoftScalarConstraint {
            pos,
            grad: g.grad,
            response: self.response.respond(self.spring, w, g.error),
            ..self
        }
    }

    #[tactic(auto, unfolding(crate::specs::Row::is_strained, gradients::specs::Kind::kind_of))]
    pub fn is_strained(self, least: f32) -> bool
        ensures { result ≡ spec.is_strained self least }
    {
        (ScalarKind::from(self.kind) == ScalarKind::Distance)
            & (self.spring.erp_inv_dt > 0.0)
            & (self.spring.rest > 0.0)
            & (abs(self.response.rhs / self.spring.erp_inv_dt) > least * self.spring.rest)
    }
}

// ---- warm start and solve. The parts are public for who has no use for a whole row.

#[tactic(auto, unfolding(crate::specs::Row::losses))]
pub fn losses(grad: Four<Vec3>, im: Masses, impulse: f32) -> Four<Vec3>
    ensures { result ≡ spec.losses grad im impulse }
{
    grad.zip(im, |g, w| g * w * impulse)
}

impl Response {
    // The impulse that answers the rate dc, before the bounds.
    #[tactic(auto, unfolding(crate::specs::Row::sought_of))]
    pub fn sought(self, dc: f32) -> f32
        ensures { result ≡ spec.sought_of self dc }
    {
        self.impulse + self.inv_lhs * (dc + self.rhs - self.cfm_gain * self.impulse)
    }

    // Within the bounds of its spring.
    #[tactic(auto, unfolding(crate::specs::Row::total_of))]
    pub fn total(self, p: Spring, dc: f32) -> f32
        ensures { result ≡ spec.total_of p self dc }
    {
        clamp(self.sought(dc), p.lower, p.upper)
    }
}

impl SoftScalarConstraint {
    fn with_impulse(self, impulse: f32) -> SoftScalarConstraint
        ensures { result ≡ spec.with_impulse self impulse }
    {
        SoftScalarConstraint {
            response: Response {
                impulse,
                ..self.response
            },
            ..self
        }
    }

    #[tactic(auto, unfolding(crate::specs::Row::warmstart))]
    pub fn warmstart(self, coeff: f32) -> Solved<SoftScalarConstraint>
        ensures { result ≡ spec.warmstart self coeff }
    {
        let impulse = self.response.impulse * coeff;
        Solved {
            state: self.with_impulse(impulse),
            loss: losses(self.grad, self.im, impulse),
        }
    }

    #[tactic(auto, unfolding(crate::specs::Row::solve))]
    pub fn solve(self, vel: Holds) -> Solved<SoftScalarConstraint>
        ensures { result ≡ spec.solve self vel }
    {
        let rate = places::rate_of(self.grad, vel);
        let total = self.response.total(self.spring, rate);
        Solved {
            state: self.with_impulse(total),
            loss: losses(self.grad, self.im, total - self.response.impulse),
        }
    }

    // ---- as `solve_color_constraint` calls them

    #[tactic(auto, unfolding(crate::specs::Row::with_peak))]
    pub fn with_peak(self) -> SoftScalarConstraint
        ensures { result ≡ spec.with_peak self }
    {
        let peak_impulse = max(self.response.peak_impulse, self.response.impulse);
        SoftScalarConstraint {
            response: Response {
                peak_impulse,
                ..self.response
            },
            ..self
        }
    }

    #[tactic(auto, unfolding(crate::specs::Row::begin))]
    pub fn begin(self, held: Holds) -> SoftScalarConstraint
        ensures { result ≡ spec.begin self held }
    {
        self.with_peak().update(held)
    }
}
