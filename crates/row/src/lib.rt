// The phases of one row on the bytes of its record, by its kind.
#![tactic(auto)]

ghost use Rattle.std.specs.Prelude.{◌≡◌, ◌≤◌, length};
ghost use Rattle.little_endian.specs.Bytes.{le16};
ghost use Rattle.floats.specs.Written.{AllWritten};
ghost use Rattle.rows.specs.Row as rows;
ghost use Rattle.stored.specs.Phases as spec;
ghost use Rattle.row.specs.Widths.{row_length, Whole};

use floats::row_bytes::RowBytes;
use places::{Holds, Ids, NOBODY};
use records::{RowKind, layout};
use vector::{Four, Vec3};

// A place past a scalar row's count is not named.
fn counted(count: u16, k: u16, id: u32) -> u32
    ensures { result ≡ rows.counted count k id }
{
    if k < count { id } else { NOBODY }
}

// Written out: which place it is goes into each.
#[tactic(auto, unfolding(stored::specs::Phases::counted_ids))]
fn counted_ids(count: u16, i: Ids) -> Ids
    ensures { result ≡ spec.counted_ids count i }
{
    Four {
        a: counted(count, 0, i.a),
        b: counted(count, 1, i.b),
        c: counted(count, 2, i.c),
        d: counted(count, 3, i.d),
    }
}

// The bytes of a row's record, with room for the fields of its kind.
#[derive(Clone, Copy)]
pub struct Record<'a> {
    pub bytes: &'a [u8],
    pub ghost wide: { row_length (le16 bytes.now 4) ≤ length bytes.now },
}

impl<'a> Record<'a> {
    // As ids, not as clash's Options: NOBODY in the record and a place that is not counted are one case for points.
    #[tactic(auto, using(crate::proofs::ByKind::long_row, crate::proofs::ByKind::names_of_kind))]
    pub fn names(self) -> Ids
        ensures { result ≡ spec.names_at self.entry.bytes.now }
    {
        let i = floats::ids_at(self.bytes, layout::ROW_IDS);
        match RowKind::of(self.bytes) {
            RowKind::Scalar => counted_ids(
                little_endian::get_u16(self.bytes, layout::SCALAR_COUNT),
                i,
            ),
            RowKind::Corotational | RowKind::NeoHookean => i,
        }
    }

    // Whether the row's flag is set.
    #[tactic(auto, using(crate::proofs::ByKind::long_row), unfolding(stored::specs::Phases::is_strained_at))]
    pub fn is_strained(self) -> bool
        ensures { result ≡ spec.is_strained_at self.entry.bytes.now }
    {
        little_endian::get_u16(self.bytes, layout::ROW_STRAINED) == 1
    }
}

// ---- the phases. The record is read, and then what the phase assigns is put into it. Each asks that the bytes
// are whole: for a type with the `&mut`, see cell_record's puts

#[tactic(auto, using(crate::proofs::ByKind::by_update))]
pub fn update_row(b: &mut [u8], held: Holds, least: f32)
    requires { Whole b.old }
    ensures anew { b.new ≡ spec.update_row least held b.old }
    ensures written { AllWritten b.new }
{
    match RowKind::of(b) {
        RowKind::Scalar => {
            let r = scalar_record::begun(RowBytes { bytes: b }, held);
            scalar_record::put_begun(b, r, least);
        }
        RowKind::Corotational => {
            let u = corotational_record::updated(RowBytes { bytes: b }, held);
            corotational_record::put_updated(b, u, least);
        }
        RowKind::NeoHookean => {
            let u = neo_hookean_record::updated(RowBytes { bytes: b }, held);
            neo_hookean_record::put_updated(b, &u, least);
        }
    }
}

// What each place is to lose. This and the next call other functions of each kind and put other fields: one function for both would take
// six closures, to compute and to put by each kind; and a trait over the kinds a length for each, as a const argument, and three types.
#[tactic(auto, using(crate::proofs::ByKind::by_phase), unfolding(rows::specs::Step::warmstart_of, stored::specs::Put::warm_constraint))]
pub fn warm_row(b: &mut [u8], coeff: f32) -> Four<Vec3>
    requires { Whole b.old }
    ensures anew { b.new ≡ spec.warm_row coeff b.old }
    ensures written { AllWritten b.new }
    ensures loss { result ≡ spec.warm_loss coeff b.old }
{
    match RowKind::of(b) {
        RowKind::Scalar => {
            let d = scalar_record::warmed(RowBytes { bytes: b }, coeff);
            scalar_record::put_impulse(b, d.state);
            d.loss
        }
        RowKind::Corotational => {
            let d = corotational_record::warmed(RowBytes { bytes: b }, coeff);
            cell_record::put_impulses(b, d.state);
            d.loss
        }
        RowKind::NeoHookean => {
            let d = neo_hookean_record::warmed(RowBytes { bytes: b }, coeff);
            cell_record::put_impulses(b, d.state);
            d.loss
        }
    }
}

#[tactic(auto, using(crate::proofs::ByKind::by_phase), unfolding(rows::specs::Step::solve_of, stored::specs::Put::solve_constraint))]
pub fn solve_row(b: &mut [u8], vel: Holds) -> Four<Vec3>
    requires { Whole b.old }
    ensures anew { b.new ≡ spec.solve_row vel b.old }
    ensures written { AllWritten b.new }
    ensures loss { result ≡ spec.solve_loss vel b.old }
{
    match RowKind::of(b) {
        RowKind::Scalar => {
            let d = scalar_record::solved(RowBytes { bytes: b }, vel);
            scalar_record::put_impulse(b, d.state);
            d.loss
        }
        RowKind::Corotational => {
            let d = corotational_record::solved(RowBytes { bytes: b }, vel);
            cell_record::put_impulses(b, d.state);
            d.loss
        }
        RowKind::NeoHookean => {
            let d = neo_hookean_record::solved(RowBytes { bytes: b }, vel);
            neo_hookean_record::put_solved(b, d.state);
            d.loss
        }
    }
}
