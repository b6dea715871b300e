// What both elastic rows share on the bytes of a record: the pose anew, the strain rows, the impulses, and what of them is put back.
#![tactic(auto)]

ghost use Rattle.std.specs.Prelude.{◌≡◌, ◌≤◌, length};
ghost use Rattle.records.specs.Layout as at;
ghost use Rattle.strain.specs.Matrix.{mat_vec};
ghost use Rattle.cell.specs.Cell as cell;
ghost use Rattle.floats.specs.Fields.{mat3_at};
ghost use Rattle.floats.specs.Written.{Kept};
ghost use Rattle.stored.specs.Read.{cell_of, pose_of, compliance_of, impulses_of};
ghost use Rattle.stored.specs.Put.{put_flag, put_pose, put_impulses};
ghost use Rattle.cell_record.specs.Anew.{pos_anew, deformation_anew, posed_anew};
ghost use Rattle.cell_record.specs.Rows.{strain_rows};

use cell::{Compliance, Impulses, Pose, StrainRows};
use floats::Field;
use floats::row_bytes::RowBytes;
use places::Holds;
use records::layout;
use stored::put_flag;
use vector::{Four, Mat3, Vec3};

// The bytes of an elastic row, as far as both kinds have the same fields.
pub type ElasticBytes<'a> = RowBytes<'a, { layout::ELASTIC_END }>;

// Each put here asks for the length. A type that holds the length beside the `&mut` was tried: each put then had to ensure that the type
// holds the same reference after it, and to make the type a caller had to know that all floats are as they are written, which Kept alone
// passes on.
pub fn put_strained(b: &mut [u8], strain: &[f32; 6], least: f32)
    requires { 450 ≤ length b.old }
    ensures { (b.new ≡ put_flag b.old at.row_strained (cell.is_strained strain.now least)) × Kept b.old b.new }
{
    put_flag(
        b,
        layout::ROW_STRAINED,
        cell::update::is_strained(strain, least),
    );
}

// ---- the pose: only what an update uses of the last one is read

#[tactic(auto, unfolding(crate::specs::Anew::pos_anew, floats::specs::Fields::four_at))]
pub fn pos_anew(b: ElasticBytes, held: Holds) -> Four<Vec3>
    ensures { result ≡ pos_anew held b.entry.bytes.now }
{
    places::refreshed(held, b.get(layout::ROW_POS))
}

#[tactic(auto, unfolding(crate::specs::Anew::deformation_anew))]
pub fn deformation_anew(b: ElasticBytes, pos: Four<Vec3>) -> Mat3
    ensures { result ≡ deformation_anew pos b.entry.bytes.now }
{
    cell::update::deformation_gradient(pos, b.get(layout::ELASTIC_INV_REST_MATRIX))
}

#[tactic(auto, unfolding(crate::specs::Anew::posed_anew))]
pub fn posed_anew(b: ElasticBytes, pos: Four<Vec3>, f: Mat3) -> Pose
    ensures { result ≡ posed_anew pos f b.entry.bytes.now }
{
    let caps = b.get(layout::ELASTIC_STRAIN_CAP);
    let warm = b.get(layout::ELASTIC_ROTATION);
    cell::update::posed(&caps, warm, pos, f)
}

// With the deformation gradient, which a corotational row goes on to use.
#[tactic(auto, using(crate::proofs::Posed::pose_is))]
pub fn pose_anew(b: ElasticBytes, held: Holds) -> (Pose, Mat3)
    ensures pose { result.0 ≡ cell.update_pose (cell_of b.entry.bytes.now) (pose_of b.entry.bytes.now) held }
    ensures gradient { result.1 ≡ deformation_anew (pos_anew held b.entry.bytes.now) b.entry.bytes.now }
{
    let pos = pos_anew(b, held);
    let f = deformation_anew(b, pos);
    (posed_anew(b, pos, f), f)
}

#[tactic(auto, unfolding(stored::specs::Put::put_pose, floats::specs::Fields::put_four))]
pub fn put_pose(b: &mut [u8], p: Pose)
    requires { 450 ≤ length b.old }
    ensures { (b.new ≡ put_pose p b.old) × Kept b.old b.new }
{
    put_flag(b, layout::ELASTIC_INVERTED, p.inverted);
    p.pos.put(b, layout::ROW_POS);
    p.rotation.put(b, layout::ELASTIC_ROTATION);
    p.rot_mat.put(b, layout::ELASTIC_ROT_MAT);
    p.strain.put(b, layout::ELASTIC_STRAIN);
}

// ---- the strain rows and the impulses: each reader is compiled into each phase that reads by it

#[inline(always)]
#[tactic(auto, unfolding(crate::specs::Rows::strain_rows, floats::specs::Fields::four_at, floats::specs::Fields::masses_at))]
pub fn strain_rows(b: ElasticBytes, rot: Mat3) -> StrainRows
    ensures { result ≡ strain_rows rot b.entry.bytes.now }
{
    StrainRows {
        rot,
        coeffs: b.get(layout::ELASTIC_COEFFS),
        im: b.get(layout::ROW_IM),
    }
}

#[inline(always)]
#[tactic(auto, unfolding(stored::specs::Read::impulses_of))]
pub fn impulses_of(b: ElasticBytes) -> Impulses
    ensures { result ≡ impulses_of b.entry.bytes.now }
{
    Impulses {
        strain: b.get(layout::ELASTIC_STRAIN_IMPULSE),
        vol: b.get(layout::ELASTIC_VOL_IMPULSE),
    }
}

// The strain rows under the stored rotation, and the impulses: what a warm start and a solve begin with. Two values: a struct of both could
// have no methods, since the functions that take them are of other crates.
#[inline(always)]
pub fn rows_and_impulses(b: ElasticBytes) -> (StrainRows, Impulses)
    ensures rows { result.0 ≡ strain_rows (mat3_at b.entry.bytes.now at.elastic_rot_mat) b.entry.bytes.now }
    ensures impulses { result.1 ≡ impulses_of b.entry.bytes.now }
{
    let rot = b.get(layout::ELASTIC_ROT_MAT);
    (strain_rows(b, rot), impulses_of(b))
}

#[tactic(auto, unfolding(stored::specs::Put::put_impulses))]
pub fn put_impulses(b: &mut [u8], l: Impulses)
    requires { 450 ≤ length b.old }
    ensures { (b.new ≡ put_impulses l b.old) × Kept b.old b.new }
{
    l.strain.put(b, layout::ELASTIC_STRAIN_IMPULSE);
    l.vol.put(b, layout::ELASTIC_VOL_IMPULSE);
}

// ---- the block's inverse

#[inline(always)]
#[tactic(auto, unfolding(stored::specs::Read::compliance_of))]
pub fn compliance_of(b: ElasticBytes) -> Compliance
    ensures { result ≡ compliance_of b.entry.bytes.now }
{
    Compliance {
        inv_a: b.get(layout::ELASTIC_INV_A),
    }
}

// The block's inverse times a residual: read and multiplied in one function, which both kinds call, since the product would lose its
// vector instructions if it were compiled into a solve.
#[inline(never)]
pub fn eased_at(b: ElasticBytes, residual: &[f32; 6]) -> [f32; 6]
    ensures { result ≡ mat_vec (compliance_of b.entry.bytes.now).inv_a residual.now }
{
    compliance_of(b).eased(residual)
}
