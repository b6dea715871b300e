// A scalar row read from its record, its phases on the row as a struct, and what each phase assigns put back into the record. An update
// puts the rest of `pos` and `grad` with them, as it was read: a position that is not fetched, a gradient that a distance row does not
// assign.
#![tactic(auto)]

ghost use Rattle.std.specs.Prelude.{◌≡◌, ◌≤◌, length};
ghost use Rattle.records.specs.Layout as at;
ghost use Rattle.scalar.specs.Row as s;
ghost use Rattle.floats.specs.Fields.{put_f32};
ghost use Rattle.floats.specs.Written.{Kept};
ghost use Rattle.stored.specs.Read.{spring_at, response_at, scalar_of};
ghost use Rattle.stored.specs.Put.{put_flag, put_response, put_scalar};

use floats::Field;
use floats::row_bytes::RowBytes;
use places::{Holds, Solved};
use records::layout;
use scalar::{Response, SoftScalarConstraint, Spring};
use stored::put_flag;

// The bytes of a scalar row.
type Bytes<'a> = RowBytes<'a, { layout::SCALAR_END }>;

// ---- read

#[inline(always)]
#[tactic(auto, unfolding(stored::specs::Read::spring_at))]
fn spring_at(b: Bytes) -> Spring
    ensures { result ≡ spring_at b.entry.bytes.now }
{
    Spring {
        rest: b.get(layout::SCALAR_REST),
        erp_inv_dt: b.get(layout::SCALAR_ERP_INV_DT),
        cfm_coeff: b.get(layout::SCALAR_CFM_COEFF),
        lower: b.get(layout::SCALAR_LOWER),
        upper: b.get(layout::SCALAR_UPPER),
    }
}

#[inline(always)]
#[tactic(auto, unfolding(stored::specs::Read::response_at))]
fn response_at(b: Bytes) -> Response
    ensures { result ≡ response_at b.entry.bytes.now }
{
    Response {
        inv_lhs: b.get(layout::SCALAR_INV_LHS),
        cfm_gain: b.get(layout::SCALAR_CFM_GAIN),
        rhs: b.get(layout::SCALAR_RHS),
        impulse: b.get(layout::SCALAR_IMPULSE),
        peak_impulse: b.get(layout::SCALAR_PEAK_IMPULSE),
    }
}

// The whole row. It is compiled into each phase, and the fields that the phase does not use are never read: one function for all three made
// scalar sheets take up to twice as long.
#[inline(always)]
#[tactic(auto, unfolding(stored::specs::Read::scalar_of, floats::specs::Fields::four_at, floats::specs::Fields::masses_at))]
fn row_of(b: Bytes) -> SoftScalarConstraint
    ensures { result ≡ scalar_of b.entry.bytes.now }
{
    SoftScalarConstraint {
        kind: u32::from(b.get_u16(layout::SCALAR_TYPE)),
        count: u32::from(b.get_u16(layout::SCALAR_COUNT)),
        pos: b.get(layout::ROW_POS),
        im: b.get(layout::ROW_IM),
        grad: b.get(layout::SCALAR_GRAD),
        spring: spring_at(b),
        response: response_at(b),
    }
}

// ---- put: each asks for the length, as those of cell_record do, and for the reason that stands there

#[tactic(auto, unfolding(stored::specs::Put::put_response))]
fn put_response(b: &mut [u8], s: Response)
    requires { 182 ≤ length b.old }
    ensures { (b.new ≡ put_response s b.old) × Kept b.old b.new }
{
    s.inv_lhs.put(b, layout::SCALAR_INV_LHS);
    s.cfm_gain.put(b, layout::SCALAR_CFM_GAIN);
    s.rhs.put(b, layout::SCALAR_RHS);
    s.peak_impulse.put(b, layout::SCALAR_PEAK_IMPULSE);
}

#[tactic(auto, unfolding(stored::specs::Put::put_scalar, floats::specs::Fields::put_four))]
fn put_scalar(b: &mut [u8], r: SoftScalarConstraint)
    requires { 182 ≤ length b.old }
    ensures { (b.new ≡ put_scalar r b.old) × Kept b.old b.new }
{
    r.pos.put(b, layout::ROW_POS);
    r.grad.put(b, layout::SCALAR_GRAD);
    put_response(b, r.response);
}

// ---- the phases: what each makes of the row, and what it puts

pub fn begun(b: Bytes, held: Holds) -> SoftScalarConstraint
    ensures { result ≡ s.begin (scalar_of b.entry.bytes.now) held }
{
    row_of(b).begin(held)
}

pub fn put_begun(b: &mut [u8], r: SoftScalarConstraint, least: f32)
    requires { 182 ≤ length b.old }
    ensures { (b.new ≡ put_flag (put_scalar r b.old) at.row_strained (s.is_strained r least)) × Kept b.old b.new }
{
    put_scalar(b, r);
    put_flag(b, layout::ROW_STRAINED, r.is_strained(least));
}

pub fn warmed(b: Bytes, coeff: f32) -> Solved<SoftScalarConstraint>
    ensures { result ≡ s.warmstart (scalar_of b.entry.bytes.now) coeff }
{
    row_of(b).warmstart(coeff)
}

pub fn solved(b: Bytes, vel: Holds) -> Solved<SoftScalarConstraint>
    ensures { result ≡ s.solve (scalar_of b.entry.bytes.now) vel }
{
    row_of(b).solve(vel)
}

// What a warm start and a solve assign.
pub fn put_impulse(b: &mut [u8], r: SoftScalarConstraint)
    requires { 182 ≤ length b.old }
    ensures { (b.new ≡ put_f32 b.old at.scalar_impulse r.response.impulse) × Kept b.old b.new }
{
    r.response.impulse.put(b, layout::SCALAR_IMPULSE);
}
