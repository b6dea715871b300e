// The inverse of a 6x6 matrix, column by column, by elimination with partial pivoting: in place, and only on the
// entries that change. The loops go by index: an entry's place in the flat matrix is made of two, and a row of it is no slice. That
// they are below 6 stands in each contract: a type for it would be taken apart at each entry.
#![tactic(auto)]

ghost use Rattle.std.specs.Prelude.{◌≡◌, ◌<◌, length, is_ok};
ghost use Rattle.loops.specs.Loops.{up_to};
ghost use Rattle.strain.specs.Matrix as matrix;
ghost use Rattle.inverse.specs.Elimination as elimination;
ghost use Rattle.inverse.specs.Factors.{state, going};
ghost use Rattle.inverse.specs.Inverse as spec;

use real::{abs, pick};

// A matrix under elimination, and the number that each of its rows had at first.
#[derive(Drop)]
struct Elimination {
    m: [f32; 36],
    rows: [usize; 6],
    ghost sizes: { (length m ≡ 36) × (length rows ≡ 6) },
}

// A pivot is zero.
#[derive(Clone, Copy)]
struct Singular;

// The row of the pivot of column j; `most` is its magnitude. The first of equal ones counts, and a NaN
// neither takes another's place nor loses its own: floats have no order by which `max_by` would choose so.
#[tactic(auto, using(crate::specs::Pivot::best_none, crate::specs::Pivot::best_more, crate::specs::Pivot::best_all))]
fn pivot_row(m: &[f32; 36], j: usize) -> usize
    requires { j < 6 }
    ensures { (result ≡ spec.pivot_row m.now j) × (result < 6) }
{
    let mut best = j;
    let mut most = abs(m[j * 6 + j]);
    for i in j + 1..6 {
        let x = abs(m[j * 6 + i]);
        let more = most < x;
        best = pick(more, i, best);
        most = pick(more, x, most);
    }
    best
}

// By index: the contract of `as_chunks_mut`, as that of `chunks_exact_mut`, does not say what the slice holds after it.
#[tactic(auto, using(loops::specs::Loops::counted, crate::specs::Pivot::swap_all))]
fn swap_rows(m: &mut [f32; 36], p: usize, j: usize)
    requires { (length m.old ≡ 36) × (p < 6) × (j < 6) }
    ensures { m.new ≡ spec.swap_rows m.old p j }
{
    for k in 0usize..6 {
        m.swap(k * 6 + p, k * 6 + j);
    }
}

// Column j below the pivot becomes the multipliers. Over the slice from j * 6 + j + 1 to j * 6 + 6 the loop would be no plainer.
#[tactic(auto, using(loops::specs::Between::counted_from), unfolding(crate::specs::Elimination::scaled))]
fn scale(m: &mut [f32; 36], j: usize, inv: f32)
    requires { j < 6 }
    ensures { m.new ≡ elimination.scaled j inv m.old }
{
    for i in j + 1..6 {
        m[j * 6 + i] *= inv;
    }
}

// Column k below row j loses the multipliers times its entry in row j.
#[tactic(auto, using(loops::specs::Between::counted_from), unfolding(crate::specs::Elimination::reduced))]
fn reduce(m: &mut [f32; 36], j: usize, k: usize)
    requires { (j < 6) × (k < 6) }
    ensures { m.new ≡ elimination.reduced j k m.old }
{
    let x = m[k * 6 + j];
    for i in j + 1..6 {
        m[k * 6 + i] -= m[j * 6 + i] * x;
    }
}

#[tactic(auto, using(loops::specs::Between::counted_from))]
fn eliminate(m: &mut [f32; 36], j: usize, inv: f32)
    requires { (length m.old ≡ 36) × (j < 6) }
    ensures { m.new ≡ spec.eliminate m.old j inv }
{
    scale(m, j, inv);
    for k in j + 1..6 {
        reduce(m, j, k);
    }
}

impl Elimination {
    fn eliminate_column(&mut self, j: usize) -> Result<(), Singular>
        requires { j < 6 }
        ensures { state self.new.m self.new.rows (is_ok result) ≡ spec.factor_column j (going self.old.m self.old.rows) }
    {
        let p = pivot_row(&self.m, j);
        swap_rows(&mut self.m, p, j);
        let d = self.m[j * 6 + j];
        if d == 0.0 {
            return Err(Singular);
        }
        eliminate(&mut self.m, j, 1.0 / d);
        self.rows.swap(j, p);
        Ok(())
    }

    fn factor(&mut self) -> Result<(), Singular>
        ensures { state self.new.m self.new.rows (is_ok result) ≡ up_to 6 spec.factor_column (going self.old.m self.old.rows) }
    {
        for j in 0usize..6 {
            self.eliminate_column(j)?;
        }
        Ok(())
    }

    // Column c of the inverse, once the matrix is factored.
    #[tactic(auto, unfolding(crate::specs::Inverse::solve_column))]
    fn solve_column(&self, c: usize) -> [f32; 6]
        ensures { result ≡ spec.solve_column (going self.now.m self.now.rows) c }
    {
        let mut x = unit(&self.rows, c);
        forward(&self.m, &mut x);
        backward(&self.m, &mut x);
        x
    }

    // The inverse of the matrix that has these factors. For the loop see strain's `mat_mul`.
    fn solve(&self) -> [f32; 36]
        ensures { result ≡ matrix.from_fn (spec.solved_at (going self.now.m self.now.rows)) }
    {
        let mut r = [0.0f32; 36];
        for c in 0usize..6 {
            strain::set_column(&mut r, c, &self.solve_column(c));
        }
        r
    }
}

#[tactic(auto, unfolding(crate::specs::Inverse::unit))]
fn unit(rows: &[usize; 6], c: usize) -> [f32; 6]
    ensures { result ≡ spec.unit rows.now c }
{
    rows.map(|row| pick(row == c, 1.0, 0.0))
}

#[tactic(auto, using(loops::specs::Loops::counted), unfolding(crate::specs::Inverse::forward_at))]
fn forward_at(m: &[f32; 36], x: &[f32; 6], i: usize) -> f32
    requires { i < 6 }
    ensures { result ≡ spec.forward_at m.now x.now i }
{
    let mut acc = x[i];
    for k in 0..i {
        acc -= m[k * 6 + i] * x[k];
    }
    acc
}

#[tactic(auto, using(loops::specs::Loops::counted), unfolding(crate::specs::Inverse::forward))]
fn forward(m: &[f32; 36], x: &mut [f32; 6])
    ensures { x.new ≡ spec.forward m.now x.old }
{
    for i in 0usize..6 {
        let v = forward_at(m, x, i);
        x[i] = v;
    }
}

#[tactic(auto, using(crate::specs::Falling::terms), unfolding(crate::specs::Inverse::backward_at))]
fn backward_at(m: &[f32; 36], x: &[f32; 6], i: usize) -> f32
    requires { i < 6 }
    ensures { result ≡ spec.backward_at m.now x.now i }
{
    let mut rest = x[i];
    for k in (i + 1..6).rev() {
        rest -= m[k * 6 + i] * x[k];
    }
    rest / m[i * 6 + i]
}

#[tactic(auto, using(crate::specs::Falling::parts), unfolding(crate::specs::Inverse::backward))]
fn backward(m: &[f32; 36], x: &mut [f32; 6])
    ensures { x.new ≡ spec.backward m.now x.old }
{
    for i in (0usize..6).rev() {
        let v = backward_at(m, x, i);
        x[i] = v;
    }
}

// The inverse, or zeros where a pivot is zero, as the Rust gives and C gets: inside it is a Result.
pub fn try_inverse(m: &[f32; 36]) -> [f32; 36]
    ensures { result ≡ spec.try_inverse m.now }
{
    let mut e = Elimination {
        m: *m,
        rows: [0, 1, 2, 3, 4, 5],
    };
    match e.factor() {
        Ok(()) => e.solve(),
        Err(Singular) => [0.0; 36],
    }
}
