// Six-vectors and 6x6 matrices as flat arrays, a matrix column by column: entry (i, j) stands at j * 6 + i. Flat, as document 01 asks and
// as C has them.
#![tactic(auto)]

ghost use Rattle.std.specs.Prelude.{◌≡◌, ◌<◌};
ghost use Rattle.real.specs.Float.{◌⊕◌, ◌⊖◌, ◌⊗◌, at};
ghost use Rattle.strain.specs.Columns as columns;
ghost use Rattle.strain.specs.Matrix as matrix;
ghost use Rattle.strain.specs.Parts as parts;
ghost use Rattle.strain.specs.Six as six;

use real::abs;
use std::array::from_fn;

// ---- lists of N floats, part by part: N is 6 for a strain, 36 for a matrix

#[tactic(auto, using(loops::specs::Fill::tabulated), unfolding(crate::specs::Parts::add))]
pub fn add<const N: usize>(a: &[f32; N], b: &[f32; N]) -> [f32; N]
    ensures { result ≡ parts.add N a.now b.now }
{
    from_fn(
        |k: usize| -> f32
            requires { k < N }
            ensures { result ≡ at a.entry.now k ⊕ at b.entry.now k }
        { a[k] + b[k] },
    )
}

#[tactic(auto, using(loops::specs::Fill::tabulated), unfolding(crate::specs::Parts::sub))]
pub fn sub<const N: usize>(a: &[f32; N], b: &[f32; N]) -> [f32; N]
    ensures { result ≡ parts.sub N a.now b.now }
{
    from_fn(
        |k: usize| -> f32
            requires { k < N }
            ensures { result ≡ at a.entry.now k ⊖ at b.entry.now k }
        { a[k] - b[k] },
    )
}

#[tactic(auto, using(loops::specs::Fill::tabulated), unfolding(crate::specs::Parts::component_mul))]
pub fn component_mul<const N: usize>(a: &[f32; N], b: &[f32; N]) -> [f32; N]
    ensures { result ≡ parts.component_mul N a.now b.now }
{
    from_fn(
        |k: usize| -> f32
            requires { k < N }
            ensures { result ≡ at a.entry.now k ⊗ at b.entry.now k }
        { a[k] * b[k] },
    )
}

// Not by the array's own `map`: that asks that N floats fit in memory beside them, which is not known of every N.
#[tactic(auto, using(loops::specs::Fill::tabulated), unfolding(crate::specs::Parts::scale))]
pub fn scale<const N: usize>(a: &[f32; N], s: f32) -> [f32; N]
    ensures { result ≡ parts.scale N a.now s }
{
    from_fn(
        |k: usize| -> f32
            requires { k < N }
            ensures { result ≡ at a.entry.now k ⊗ s }
        { a[k] * s },
    )
}

// ---- six-vectors

// Written out: a `fold` from the first product is longer, and one from 0.0, as `sum` is, adds a zero first.
#[tactic(auto, unfolding(crate::specs::Six::dot6))]
pub fn dot6(a: &[f32; 6], b: &[f32; 6]) -> f32
    ensures { result ≡ six.dot6 a.now b.now }
{
    a[0] * b[0] + a[1] * b[1] + a[2] * b[2] + a[3] * b[3] + a[4] * b[4] + a[5] * b[5]
}

// Whether no part's magnitude is above the limit; a NaN is above it.
#[tactic(auto, unfolding(crate::specs::Six::all_within6))]
pub fn all_within6(a: &[f32; 6], limit: f32) -> bool
    ensures { result ≡ six.all_within6 a.now limit }
{
    a.iter().all(|x| abs(*x) <= limit)
}

// Whether some part's magnitude is above the limit; a NaN is not.
#[tactic(auto, unfolding(crate::specs::Six::any_above6))]
pub fn any_above6(a: &[f32; 6], limit: f32) -> bool
    ensures { result ≡ six.any_above6 a.now limit }
{
    a.iter().any(|x| abs(*x) > limit)
}

// ---- products. That a column's number is below 6 stands in each contract: a type for it would be taken apart at each entry

// Row i of m times v. The row is written out: gathered by `from_fn`, a product of matrices took 45 ns for 33.
#[tactic(auto, unfolding(crate::specs::Matrix::row))]
fn row_dot(m: &[f32; 36], i: usize, v: &[f32; 6]) -> f32
    requires { i < 6 }
    ensures { result ≡ six.dot6 (matrix.row m.now i) v.now }
{
    let r = [m[i], m[i + 6], m[i + 12], m[i + 18], m[i + 24], m[i + 30]];
    dot6(&r, v)
}

#[tactic(auto, unfolding(crate::specs::Matrix::mat_vec))]
#[inline]
pub fn mat_vec(m: &[f32; 36], v: &[f32; 6]) -> [f32; 6]
    ensures { result ≡ matrix.mat_vec m.now v.now }
{
    from_fn(|i| row_dot(m, i, v))
}

#[tactic(auto, unfolding(crate::specs::Matrix::column))]
fn column(m: &[f32; 36], j: usize) -> [f32; 6]
    requires { j < 6 }
    ensures { result ≡ matrix.column m.now j }
{
    from_fn(|i| m[j * 6 + i])
}

// A store for each part: with `copy_from_slice` a product of matrices took 73 ns for 41.
#[tactic(auto, using(loops::specs::Loops::counted))]
pub fn set_column(m: &mut [f32; 36], j: usize, c: &[f32; 6])
    requires { j < 6 }
    ensures { m.new ≡ columns.set_column m.old j c.now }
{
    for (i, x) in c.iter().enumerate() {
        m[j * 6 + i] = *x;
    }
}

// Column by column, as the columns lie: `from_fn` over all 36 entries would make each column six times. The same loop is in `ger`, cell's
// `from_columns` and inverse's `solve`: of one function over a closure each closure's clauses, which are to say that a column's number is
// below 6, would be longer than this loop.
pub fn mat_mul(a: &[f32; 36], b: &[f32; 36]) -> [f32; 36]
    ensures { result ≡ matrix.mat_mul a.now b.now }
{
    let mut r = [0.0f32; 36];
    for j in 0usize..6 {
        set_column(&mut r, j, &mat_vec(a, &column(b, j)));
    }
    r
}

// Column j of what `ger` makes.
fn ger_column(factor: f32, w: &[f32; 6], m: &[f32; 36], j: usize) -> [f32; 6]
    requires { j < 6 }
    ensures { result ≡ columns.column_of (matrix.ger_at factor w.now m.now) j }
{
    from_fn(|i| factor * w[j] * w[i] + m[j * 6 + i])
}

// Column by column: by `from_fn` over all 36 entries it took 65 ns for 12.5.
pub fn ger(factor: f32, w: &[f32; 6], m: &[f32; 36]) -> [f32; 36]
    ensures { result ≡ matrix.ger factor w.now m.now }
{
    let mut r = [0.0f32; 36];
    for j in 0usize..6 {
        set_column(&mut r, j, &ger_column(factor, w, m, j));
    }
    r
}

// ---- whole matrices

// Six stores: by `from_fn` over all 36 entries it took 70 ns for 6.3.
#[tactic(auto, using(loops::specs::Loops::counted), unfolding(crate::specs::Matrix::from_diagonal))]
pub fn from_diagonal(d: &[f32; 6]) -> [f32; 36]
    ensures { result ≡ matrix.from_diagonal d.now }
{
    let mut r = [0.0f32; 36];
    for (i, x) in d.iter().enumerate() {
        r[7 * i] = *x;
    }
    r
}

#[tactic(auto, unfolding(crate::specs::Matrix::from_diagonal, crate::specs::Matrix::identity6))]
pub fn identity6() -> [f32; 36]
    ensures { result ≡ matrix.identity6 }
{
    from_diagonal(&[1.0f32; 6])
}
