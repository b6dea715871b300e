// A neo-Hookean row read from its record in its parts, each when it is used, and what each phase assigns put back into the record. An
// update puts all of `pos`: a position that is not fetched as it was read.
#![tactic(auto)]

ghost use Rattle.std.specs.Prelude.{◌≡◌, ◌≤◌, length};
ghost use Rattle.records.specs.Layout as at;
ghost use Rattle.neo_hookean.specs.Row as n;
ghost use Rattle.floats.specs.Fields.{put_floats};
ghost use Rattle.floats.specs.Written.{Kept};
ghost use Rattle.stored.specs.Read.{material_of, stiffness_of, neo_hookean_of};
ghost use Rattle.neo_hookean_record.specs.Parts as spec;

use cell::{Impulses, Pose, StrainRows};
use cell_record::{put_pose, rows_and_impulses};
use energy::{Energy, Lame};
use floats::Field;
use floats::row_bytes::RowBytes;
use neo_hookean::{Block, Material, Stiffness};
use places::{Holds, Solved};
use records::layout;

// The bytes of a neo-Hookean row.
pub type Bytes<'a> = RowBytes<'a, { layout::NEO_END }>;

// ---- update

#[tactic(auto, unfolding(stored::specs::Read::material_of))]
fn lame_of(b: Bytes) -> Lame
    ensures { result ≡ (material_of b.entry.bytes.now).lame }
{
    Lame {
        mu: b.get(layout::NEO_MU),
        lambda: b.get(layout::NEO_LAMBDA),
    }
}

#[tactic(auto, unfolding(stored::specs::Read::material_of))]
fn material_of(b: Bytes) -> Material
    ensures { result ≡ material_of b.entry.bytes.now }
{
    Material {
        dt: b.get(layout::NEO_DT),
        lame: lame_of(b),
        damping: b.get(layout::NEO_DAMPING),
    }
}

// What an update assigns, with the energy that it computed on the way: the block only after a move, and otherwise it is neither read nor
// written.
#[derive(Clone, Copy)]
pub struct Update {
    pub pose: Pose,
    pub energy: Energy,
    pub dt_grad: [f32; 6],
    pub block: Option<Block>,
}

pub fn is_kept(b: Bytes, strain: &[f32; 6]) -> bool
    ensures { result ≡ spec.is_kept strain.now b.entry.bytes.now }
{
    let last = b.get(layout::NEO_STIFFNESS_STRAIN);
    neo_hookean::renewal::is_fresh(strain, &last)
}

#[tactic(auto, unfolding(crate::specs::Parts::block_anew, floats::specs::Fields::four_at, floats::specs::Fields::masses_at))]
pub fn renewed(b: Bytes, energy: Energy, strain: &[f32; 6], dt_grad: &[f32; 6]) -> Block
    ensures { result ≡ spec.block_anew energy strain.now dt_grad.now b.entry.bytes.now }
{
    let coeffs = b.get(layout::ELASTIC_COEFFS);
    let im = b.get(layout::ROW_IM);
    neo_hookean::renewal::renewed(coeffs, im, material_of(b), energy, strain, dt_grad)
}

// It returns where the block is kept: for `then` the closure's clauses would have to be written out, which is longer.
#[tactic(auto, unfolding(crate::specs::Parts::update_anew, stored::specs::Read::material_of))]
pub fn updated(b: Bytes, held: Holds) -> Update
    ensures { result ≡ spec.update_anew held b.entry.bytes.now }
{
    let (pose, _) = cell_record::pose_anew(b.at_least(), held);
    let energy = lame_of(b).gradient(&pose.strain);
    let dt_grad = strain::scale(&energy.grad, b.get(layout::NEO_DT));
    if is_kept(b, &pose.strain) {
        return Update {
            pose,
            energy,
            dt_grad,
            block: None,
        };
    }
    Update {
        pose,
        energy,
        dt_grad,
        block: Some(renewed(b, energy, &pose.strain, &dt_grad)),
    }
}

// The puts ask for the length as those of cell_record do, and for the reason that stands there.
#[tactic(auto, unfolding(stored::specs::Put::put_renewed))]
fn put_block(b: &mut [u8], k: &Block)
    requires { 678 ≤ length b.old }
    ensures { (b.new ≡ spec.put_anew k.now b.old) × Kept b.old b.new }
{
    k.stiffness
        .stiffness_strain
        .put(b, layout::NEO_STIFFNESS_STRAIN);
    k.stiffness.m.put(b, layout::NEO_M);
    k.compliance.inv_a.put(b, layout::ELASTIC_INV_A);
}

#[tactic(auto, unfolding(crate::specs::Parts::put_update))]
pub fn put_updated(b: &mut [u8], u: &Update, least: f32)
    requires { 678 ≤ length b.old }
    ensures { (b.new ≡ spec.put_update u.now least b.old) × Kept b.old b.new }
{
    put_pose(b, u.pose);
    if let Some(k) = &u.block {
        put_block(b, k);
    }
    u.dt_grad.put(b, layout::NEO_DT_GRAD);
    cell_record::put_strained(b, &u.pose.strain, least);
}

// ---- warm start

#[tactic(auto, using(crate::proofs::Parted::warmstart_is))]
pub fn warmed(b: Bytes, coeff: f32) -> Solved<Impulses>
    ensures { result ≡ n.warmstart (neo_hookean_of b.entry.bytes.now) coeff }
{
    let (rows, l) = rows_and_impulses(b.at_least());
    neo_hookean::iteration::warmstart_neo_hookean(rows, l, coeff)
}

// ---- solve

#[tactic(auto, unfolding(stored::specs::Read::stiffness_of))]
fn stiffness_of(b: Bytes) -> Stiffness
    ensures { result ≡ stiffness_of b.entry.bytes.now }
{
    Stiffness {
        stiffness_strain: b.get(layout::NEO_STIFFNESS_STRAIN),
        m: b.get(layout::NEO_M),
        dt_grad: b.get(layout::NEO_DT_GRAD),
    }
}

// What the strain rows take.
#[tactic(auto, unfolding(neo_hookean::specs::NeoHookean::strain_step, crate::specs::Parts::strain_step_at))]
fn strain_step(b: Bytes, rows: StrainRows, impulse: &[f32; 6], vel: Holds) -> [f32; 6]
    ensures { result ≡ spec.strain_step_at rows.rot rows.coeffs impulse.now vel b.entry.bytes.now }
{
    let rate = rows.rates(vel);
    let residual = stiffness_of(b).pulled(&rate, impulse);
    cell_record::eased_at(b.at_least(), &residual)
}

#[tactic(auto, using(crate::proofs::Parted::solve_is))]
pub fn solved(b: Bytes, vel: Holds) -> Solved<Impulses>
    ensures { result ≡ n.solve (neo_hookean_of b.entry.bytes.now) vel }
{
    let (rows, l) = rows_and_impulses(b.at_least());
    let d = strain_step(b, rows, &l.strain, vel);
    neo_hookean::iteration::applied(rows, l, &d)
}

// The volumetric impulse is not written: this model never uses it.
pub fn put_solved(b: &mut [u8], l: Impulses)
    requires { 678 ≤ length b.old }
    ensures { (b.new ≡ put_floats 6 b.old at.elastic_strain_impulse l.strain) × Kept b.old b.new }
{
    l.strain.put(b, layout::ELASTIC_STRAIN_IMPULSE);
}
