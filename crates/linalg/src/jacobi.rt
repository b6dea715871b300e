// The steps of a Jacobi sweep, on three-by-three arrays of arrays. The pair of axes, P and Q, are const parameters: each instance has few
// callers and is compiled with them as constants. As arguments they make a sweep take twice the time. Their bounds stand in each contract:
// a type that knew them would be a value without bytes, handed along for them alone.
ghost use Rattle.std.specs.Prelude.{◌≡◌, ◌<◌};
ghost use Rattle.real.specs.Float.{◌⊕◌, ◌⊖◌, ◌⊗◌};
ghost use Rattle.linalg.specs.Eigen as spec;
ghost use Rattle.linalg.specs.Steps as steps;

// A matrix row by row, as arrays: P and Q are indices of them, where Mat3's columns are fields.
type Rows = [[f32; 3]; 3];

// A rotation by its cosine and sine. Not `SinCos`, which is another crate's, so that `turned` could be no method of it.
#[derive(Clone, Copy)]
struct Rotation {
    c: f32,
    s: f32,
}

impl Rotation {
    // What it makes of two entries that stand in the axes of its pair.
    fn turned(self, x: f32, y: f32) -> (f32, f32)
        ensures first { result.0 ≡ self.c ⊗ x ⊖ self.s ⊗ y }
        ensures second { result.1 ≡ self.s ⊗ x ⊕ self.c ⊗ y }
    {
        (self.c * x - self.s * y, self.s * x + self.c * y)
    }
}

// Sums of squares, off and on the diagonal.
pub(crate) fn is_settled(a: Rows) -> bool
    ensures { result ≡ spec.settled a }
{
    let off = 0.0 + a[0][1] * a[0][1] + a[0][2] * a[0][2] + a[1][2] * a[1][2];
    let diag = 0.0 + a[0][0] * a[0][0] + a[1][1] * a[1][1] + a[2][2] * a[2][2];
    off <= 1.0e-8 * diag
}

// The smaller rotation that zeroes apq, where d is aqq - app. No root is taken where there is nothing to zero.
#[tactic(auto, unfolding(crate::specs::Steps::rotation_for))]
fn rotation_for(apq: f32, d: f32) -> Option<Rotation>
    ensures { result ≡ steps.rotation_for apq d }
{
    if apq == 0.0 {
        return None;
    }
    let r = root::root(d * d + 4.0 * apq * apq);
    let t = 2.0 * apq / (d + real::signum(d) * r);
    let c = 1.0 / root::root(1.0 + t * t);
    Some(Rotation { c, s: t * c })
}

// The rotation that is due at a pair.
fn rotation_at<const P: usize, const Q: usize>(a: Rows) -> Option<Rotation>
    requires { (P < 3) × (Q < 3) }
    ensures { result ≡ steps.rotation_at a P Q }
{
    rotation_for(a[P][Q], a[Q][Q] - a[P][P])
}

// A J, row after row.
#[tactic(auto, using(loops::specs::Loops::counted), unfolding(crate::specs::Eigen::rotate_columns))]
fn rotate_columns<const P: usize, const Q: usize>(m: Rows, g: Rotation) -> Rows
    requires { (P < 3) × (Q < 3) }
    ensures { result ≡ spec.rotate_columns P Q g.c g.s m }
{
    let mut a = m;
    for row in &mut a {
        (row[P], row[Q]) = g.turned(row[P], row[Q]);
    }
    a
}

// Jᵀ A, column after column. By index: what changes are two rows of one array, which would have to be copied out, or the array split, to be
// gone over together. A flag that makes one function of both would be no plainer.
#[tactic(auto, using(loops::specs::Loops::counted), unfolding(crate::specs::Eigen::rotate_rows))]
fn rotate_rows<const P: usize, const Q: usize>(m: Rows, g: Rotation) -> Rows
    requires { (P < 3) × (Q < 3) }
    ensures { result ≡ spec.rotate_rows P Q g.c g.s m }
{
    let mut a = m;
    for k in 0usize..3 {
        (a[P][k], a[Q][k]) = g.turned(a[P][k], a[Q][k]);
    }
    a
}

// A matrix that is being turned to a diagonal one, and the vectors that its rotations have made so far.
#[derive(Clone, Copy)]
pub(crate) struct Turning {
    pub(crate) a: Rows,
    pub(crate) v: Rows,
}

impl Turning {
    // Jᵀ A J and V J, by the rotation that is due at the pair.
    #[tactic(auto, unfolding(crate::specs::Steps::rotation_for, crate::specs::Eigen::turn))]
    pub(crate) fn turn<const P: usize, const Q: usize>(&mut self)
        requires { (P < 3) × (Q < 3) }
        ensures { steps.state_of self.new ≡ spec.turn P Q (steps.state_of self.old) }
    {
        if let Some(g) = rotation_at::<P, Q>(self.a) {
            self.a = rotate_rows::<P, Q>(rotate_columns::<P, Q>(self.a, g), g);
            self.v = rotate_columns::<P, Q>(self.v, g);
        }
    }
}
