// Strains in six coordinates and as tensors, the sums over a cell's four places, and the effective-mass block.
ghost use Rattle.std.specs.Prelude.{◌≡◌};
ghost use Rattle.cell.specs.Columns as columns;
ghost use Rattle.cell.specs.Strain as spec;

use places::Masses;
use vector::{Four, Mat3, Vec3};

#[tactic(auto, unfolding(crate::specs::Strain::strain_rows_of, crate::specs::Strain::strain_rows_dual))]
pub fn strain_rows_of(m: Mat3) -> [f32; 6]
    ensures { result ≡ spec.strain_rows_of m }
{
    let s = strain_rows_dual(m);
    [s[0], s[1], s[2], 0.5 * s[3], 0.5 * s[4], 0.5 * s[5]]
}

#[tactic(auto, unfolding(crate::specs::Strain::strain_rows_dual))]
pub fn strain_rows_dual(m: Mat3) -> [f32; 6]
    ensures { result ≡ spec.strain_rows_dual m }
{
    [
        m.x.x,
        m.y.y,
        m.z.z,
        m.y.x + m.x.y,
        m.z.x + m.x.z,
        m.z.y + m.y.z,
    ]
}

#[tactic(auto, unfolding(crate::specs::Strain::strain_tensor, crate::specs::Strain::strain_matrix))]
pub fn strain_tensor(l: &[f32; 6]) -> Mat3
    ensures { result ≡ spec.strain_tensor l.now }
{
    strain_matrix(&[l[0], l[1], l[2], 0.5 * l[3], 0.5 * l[4], 0.5 * l[5]])
}

#[tactic(auto, unfolding(crate::specs::Strain::strain_matrix))]
pub fn strain_matrix(e: &[f32; 6]) -> Mat3
    ensures { result ≡ spec.strain_matrix e.now }
{
    Mat3 {
        x: Vec3 {
            x: e[0],
            y: e[3],
            z: e[4],
        },
        y: Vec3 {
            x: e[3],
            y: e[1],
            z: e[5],
        },
        z: Vec3 {
            x: e[4],
            y: e[5],
            z: e[2],
        },
    }
}

// A column of `outer_sum`: the vectors of a times the numbers k.
fn outer_column(a: Four<Vec3>, k: Four<f32>) -> Vec3
    ensures { result ≡ spec.outer_column a k.a k.b k.c k.d }
{
    a.zip(k, |a, k| a * k).fold(Vec3::zero(), |sum, x| sum + x)
}

#[tactic(auto, unfolding(crate::specs::Strain::outer_sum))]
pub fn outer_sum(a: Four<Vec3>, b: Four<Vec3>) -> Mat3
    ensures { result ≡ spec.outer_sum a b }
{
    Mat3 {
        x: outer_column(a, b.map(|v| v.x)),
        y: outer_column(a, b.map(|v| v.y)),
        z: outer_column(a, b.map(|v| v.z)),
    }
}

#[tactic(auto, unfolding(crate::specs::Strain::weighted))]
pub fn weighted(c: Four<Vec3>, im: Masses) -> Four<Vec3>
    ensures { result ≡ spec.weighted c im }
{
    c.zip(im, |c, w| c * w)
}

// ---- the effective-mass block

// One entry. A delta of 0 multiplies too: 0 times an infinity is a NaN, and a sum that starts at -0 becomes +0. Eight numbers, since it is
// the sum of the Rust, written out: a struct of them would be made for each of its six entries and taken apart here.
#[tactic(auto, unfolding(crate::specs::Columns::quarter))]
fn quarter(ik: f32, il: f32, jk: f32, jl: f32, gik: f32, gil: f32, gjk: f32, gjl: f32) -> f32
    ensures { result ≡ columns.quarter ik il jk jl gik gil gjk gjl }
{
    0.25 * (ik * gjl + il * gjk + jk * gil + jl * gik)
}

// A column (k, l): k and l are unit vectors, gk and gl columns k and l of G.
#[tactic(auto, unfolding(crate::specs::Columns::block_column))]
fn block_column(k: Vec3, gk: Vec3, l: Vec3, gl: Vec3) -> [f32; 6]
    ensures { result ≡ columns.block_column k gk l gl }
{
    [
        quarter(k.x, l.x, k.x, l.x, gk.x, gl.x, gk.x, gl.x),
        quarter(k.y, l.y, k.y, l.y, gk.y, gl.y, gk.y, gl.y),
        quarter(k.z, l.z, k.z, l.z, gk.z, gl.z, gk.z, gl.z),
        quarter(k.x, l.x, k.y, l.y, gk.x, gl.x, gk.y, gl.y),
        quarter(k.x, l.x, k.z, l.z, gk.x, gl.x, gk.z, gl.z),
        quarter(k.y, l.y, k.z, l.z, gk.y, gl.y, gk.z, gl.z),
    ]
}

// A 6x6 matrix of its columns, stored one by one: gathered by `from_fn` it took 98 ns for 10 to 17, and for `as_flattened` the proof did
// not close, since nothing tells that each of the six has six floats. For the loop see strain's `mat_mul`.
#[tactic(auto, using(loops::specs::Loops::counted), unfolding(crate::specs::Columns::from_columns))]
pub fn from_columns(c: &[[f32; 6]; 6]) -> [f32; 36]
    ensures { result ≡ columns.from_columns c.now }
{
    let mut r = [0.0f32; 36];
    for (j, column) in c.iter().enumerate() {
        strain::set_column(&mut r, j, column);
    }
    r
}

#[tactic(auto, using(crate::specs::Columns::by_columns))]
pub fn strain_block_from_g(g: Mat3) -> [f32; 36]
    ensures { result ≡ spec.strain_block_from_g g }
{
    let e = Mat3::identity();
    from_columns(&[
        block_column(e.x, g.x, e.x, g.x),
        block_column(e.y, g.y, e.y, g.y),
        block_column(e.z, g.z, e.z, g.z),
        block_column(e.x, g.x, e.y, g.y),
        block_column(e.x, g.x, e.z, g.z),
        block_column(e.y, g.y, e.z, g.z),
    ])
}
