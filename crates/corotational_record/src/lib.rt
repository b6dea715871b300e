// A corotational row read from its record in its parts, each when it is used, and what each phase assigns put back into the record. An
// update puts all of `pos`: a position that is not fetched as it was read.
#![tactic(auto)]

ghost use Rattle.std.specs.Prelude.{◌≡◌, ◌≤◌, length};
ghost use Rattle.corotational.specs.Row as c;
ghost use Rattle.floats.specs.Written.{Kept};
ghost use Rattle.stored.specs.Read.{springs_of, volume_of, corotational_of};
ghost use Rattle.stored.specs.Put.{put_volume};
ghost use Rattle.corotational_record.specs.Parts as spec;

use cell::{Impulses, Pose, StrainRows};
use cell_record::{compliance_of, rows_and_impulses, strain_rows};
use corotational::{Springs, Volume};
use floats::Field;
use floats::row_bytes::RowBytes;
use places::{Holds, Solved};
use records::layout;
use vector::Mat3;

// The bytes of a corotational row.
pub type Bytes<'a> = RowBytes<'a, { layout::CORO_END }>;

// ---- update

#[tactic(auto, unfolding(stored::specs::Read::springs_of))]
fn springs_of(b: Bytes) -> Springs
    ensures { result ≡ springs_of b.entry.bytes.now }
{
    Springs {
        erp_strain: b.get(layout::CORO_ERP_STRAIN),
        cfm_strain: b.get(layout::CORO_CFM_STRAIN),
        erp_vol: b.get(layout::CORO_ERP_VOL),
        cfm_coeff_vol: b.get(layout::CORO_CFM_COEFF_VOL),
        vol_cap: b.get(layout::CORO_VOL_CAP),
        volumetric: b.get_u16(layout::ELASTIC_FOURTH) == 1,
    }
}

// With f the deformation gradient of the same update.
#[tactic(auto, unfolding(crate::specs::Parts::volume_anew, cell_record::specs::Rows::strain_rows))]
fn volume_anew(b: Bytes, pose: &Pose, f: Mat3) -> Volume
    ensures { result ≡ spec.volume_anew pose.now.rot_mat pose.now.inverted f b.entry.bytes.now }
{
    let inv_rest = b.get(layout::ELASTIC_INV_REST_MATRIX);
    let rows = strain_rows(b.at_least(), pose.rot_mat);
    let springs = springs_of(b);
    let k = compliance_of(b.at_least());
    corotational::volumetric::update_volume(rows, inv_rest, springs, k, pose.inverted, f)
}

// What an update assigns.
#[derive(Clone, Copy)]
pub struct Update {
    pub pose: Pose,
    pub volume: Volume,
}

#[tactic(auto, using(crate::proofs::Parted::update_is))]
pub fn updated(b: Bytes, held: Holds) -> Update
    ensures { result ≡ spec.update_anew held b.entry.bytes.now }
{
    let (pose, f) = cell_record::pose_anew(b.at_least(), held);
    let volume = volume_anew(b, &pose, f);
    Update { pose, volume }
}

// The puts ask for the length as those of cell_record do, and for the reason that stands there.
#[tactic(auto, unfolding(stored::specs::Put::put_volume, floats::specs::Fields::put_four))]
fn put_volume(b: &mut [u8], v: Volume)
    requires { 618 ≤ length b.old }
    ensures { (b.new ≡ put_volume v b.old) × Kept b.old b.new }
{
    v.grad_vol.put(b, layout::CORO_GRAD_VOL);
    v.cfm_gain_vol.put(b, layout::CORO_CFM_GAIN_VOL);
    v.rhs_vol.put(b, layout::CORO_RHS_VOL);
    v.b.put(b, layout::CORO_B);
    v.z.put(b, layout::CORO_Z);
    v.inv_s.put(b, layout::CORO_INV_S);
}

pub fn put_updated(b: &mut [u8], u: Update, least: f32)
    requires { 618 ≤ length b.old }
    ensures { (b.new ≡ spec.put_update u least b.old) × Kept b.old b.new }
{
    cell_record::put_pose(b, u.pose);
    put_volume(b, u.volume);
    cell_record::put_strained(b, &u.pose.strain, least);
}

// ---- warm start

#[tactic(auto, using(crate::proofs::Parted::warmstart_is))]
pub fn warmed(b: Bytes, coeff: f32) -> Solved<Impulses>
    ensures { result ≡ c.warmstart (corotational_of b.entry.bytes.now) coeff }
{
    let (rows, l) = rows_and_impulses(b.at_least());
    let grad = b.get(layout::CORO_GRAD_VOL);
    corotational::block::warmstart_corotational(rows, l, grad, coeff)
}

// ---- solve

#[tactic(auto, unfolding(stored::specs::Read::volume_of, floats::specs::Fields::four_at))]
fn volume_of(b: Bytes) -> Volume
    ensures { result ≡ volume_of b.entry.bytes.now }
{
    Volume {
        grad_vol: b.get(layout::CORO_GRAD_VOL),
        cfm_gain_vol: b.get(layout::CORO_CFM_GAIN_VOL),
        rhs_vol: b.get(layout::CORO_RHS_VOL),
        b: b.get(layout::CORO_B),
        z: b.get(layout::CORO_Z),
        inv_s: b.get(layout::CORO_INV_S),
    }
}

// What the strain rows would take if there were no volumetric row.
#[tactic(auto, unfolding(corotational::specs::Corotational::strain_step, crate::specs::Parts::strain_step_at))]
fn strain_step(b: Bytes, rows: StrainRows, impulse: &[f32; 6], vel: Holds) -> [f32; 6]
    ensures { result ≡ spec.strain_step_at rows.rot rows.coeffs impulse.now vel b.entry.bytes.now }
{
    let strain = b.get(layout::ELASTIC_STRAIN);
    let erp = b.get(layout::CORO_ERP_STRAIN);
    let cfm = b.get(layout::CORO_CFM_STRAIN);
    let rate = rows.rates(vel);
    let residual = corotational::block::residual(&erp, &cfm, &strain, impulse, &rate);
    cell_record::eased_at(b.at_least(), &residual)
}

#[tactic(auto, using(crate::proofs::Parted::solve_is))]
pub fn solved(b: Bytes, vel: Holds) -> Solved<Impulses>
    ensures { result ≡ c.solve (corotational_of b.entry.bytes.now) vel }
{
    let (rows, l) = rows_and_impulses(b.at_least());
    let y = strain_step(b, rows, &l.strain, vel);
    let u = volume_of(b);
    corotational::block::solve_rows(rows, l, u, vel, &y)
}
