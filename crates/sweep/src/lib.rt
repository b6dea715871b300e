// One row's step in a frame, and the sweeps: the rows in listed order, with the place of the next one carried along.
#![tactic(auto)]

ghost use Rattle.std.specs.Prelude.{◌≡◌, ◌+◌, ◌≤◌, length};
ghost use Rattle.little_endian.specs.Bytes.{le16};
ghost use Rattle.records.specs.Records.{record_length, record_at};
ghost use Rattle.stored.specs.Points as spec;
ghost use Rattle.points.specs.Apart.{Calm};
ghost use Rattle.sweep.specs.Laid.{Standing, if_some, begin_of, step_of, is_passed, Ready, Swept, Reswept, Ran};
ghost use Rattle.sweep.specs.Joined.{joined, Stood, Moves};

use places::Ids;
use points::{Points, velocities};
use records::{RowKind, layout};
use row::Record;
use vector::Vec3;

// The phases of a main sweep beside its solve, where they are on: an update with the least strain of the head, a warm start with its
// coefficient.
#[derive(Clone, Copy)]
pub struct Phases {
    pub update: Option<f32>,
    pub warm: Option<f32>,
}

// What a sweep does with each row. A resweep solves the rows that are strained, and passes over the others. Not an
// `Option<Phases>`, whose None would not tell what is done; and as a closure every function here would carry in its clauses what it does.
#[derive(Clone, Copy)]
enum Turn {
    Main(Phases),
    Resweep,
}

// A row in its frame: it stands at off and has len bytes, and names are the ids that it names.
#[derive(Clone, Copy)]
struct Row {
    off: usize,
    len: usize,
    names: Ids,
}

// ---- one row: fetch, compute, alter

// The frame s and the velocities v go together, but stay two slices: of a struct of two `&mut` each function would have to ensure that it
// keeps both references and their lengths, which the type of a slice says. That the row stands in the frame is asked of the frame as it is
// then, so that it is no field of the row. Its end is made where it is used: a method would have to ask that it does not overflow.
impl Row {
    fn update(self, least: Option<f32>, s: &mut [u8], v: &[Vec3])
        requires { Stood self v.now s.old }
        ensures { Moves (if_some (spec.update (length v.now)) least) self.off self.len s.old v.now s.new v.now }
    {
        if let Some(least) = least {
            let count = v.len();
            let points = Points { frame: s, count };
            let held = points.positions(self.names);
            let end = self.off + self.len;
            row::update_row(&mut s[self.off..end], held, least);
        }
    }

    fn warm(self, coeff: Option<f32>, s: &mut [u8], v: &mut [Vec3])
        requires { Stood self v.old s.old }
        ensures { Moves (if_some (spec.warm (length v.old)) coeff) self.off self.len s.old v.old s.new v.new }
    {
        if let Some(coeff) = coeff {
            let end = self.off + self.len;
            let loss = row::warm_row(&mut s[self.off..end], coeff);
            velocities::take(v, self.names, loss);
        }
    }

    fn solve(self, s: &mut [u8], v: &mut [Vec3])
        requires { Stood self v.old s.old }
        ensures { Moves (spec.solve (length v.old)) self.off self.len s.old v.old s.new v.new }
    {
        let vel = velocities::of(v, self.names);
        let end = self.off + self.len;
        let loss = row::solve_row(&mut s[self.off..end], vel);
        velocities::take(v, self.names, loss);
    }

    // What goes before the solve.
    fn begin(self, t: Turn, s: &mut [u8], v: &mut [Vec3])
        requires { Stood self v.old s.old }
        ensures { Moves (begin_of (length v.old) t) self.off self.len s.old v.old s.new v.new }
    {
        if let Turn::Main(p) = t {
            self.update(p.update, s, v);
            self.warm(p.warm, s, v);
        }
    }
}

// Whether a row is passed over.
fn is_passed(t: Turn, b: Record) -> bool
    ensures { result ≡ is_passed t b.entry.bytes.now }
{
    match t {
        Turn::Main(_) => false,
        Turn::Resweep => !b.is_strained(),
    }
}

// The row's names are read once, and what the phases put leaves them. The main sweep does as `solve_color_constraint` does it.
fn step(t: Turn, off: usize, len: usize, s: &mut [u8], v: &mut [Vec3])
    requires { Standing (length v.old) off len (joined v.old s.old) }
    ensures { Moves (step_of (length v.old) t) off len s.old v.old s.new v.new }
{
    let b = Record {
        bytes: records::record_at(s, off),
    };
    if is_passed(t, b) {
        return;
    }
    let names = b.names();
    let row = Row { off, len, names };
    row.begin(t, s, v);
    row.solve(s, v);
}

// ---- the sweeps: r rows. That the frame is laid out so is asked of it as it is then, and so stands in each contract

// The bytes of the row at off, as a part of the frame. A scalar row's length is known by its kind, through a branch: so the place of the
// next row does not wait until the length is read. By `record_at` alone, resweeps that pass over scalar rows took 9.3 ns for 6.6 for each.
fn row_at(s: &[u8], off: usize) -> &[u8]
    requires kind { off + 6 ≤ length s.now }
    requires whole { off + record_length s.now off ≤ length s.now }
    requires scalar { le16 s.now (off + 4) ≡ 3 → record_length s.now off ≡ 182 }
    ensures { (result.now ≡ record_at s.now off) × (length result.now ≡ record_length s.now off) }
{
    match RowKind::of(&s[off..]) {
        RowKind::Scalar => &s[off..off + layout::SCALAR_END],
        RowKind::Corotational | RowKind::NeoHookean => records::record_at(s, off),
    }
}

// The rows are walked by hand: while they are walked the frame is altered, and so no iterator may hold it.
fn sweep(t: Turn, r: usize, s: &mut [u8], v: &mut [Vec3])
    requires { Ready (length v.old) r (joined v.old s.old) }
    ensures { Swept t (length v.old) r (joined v.old s.old) (joined v.new s.new) }
{
    let mut off = layout::HEAD_END + layout::POINT_END * v.len();
    for _row in 0..r {
        let len = row_at(s, off).len();
        step(t, off, len, s, v);
        off += len;
    }
}

fn resweeps(k: u16, r: usize, s: &mut [u8], v: &mut [Vec3])
    requires { Ready (length v.old) r (joined v.old s.old) }
    ensures { Reswept k (length v.old) r (joined v.old s.old) (joined v.new s.new) }
{
    for _turn in 0..k {
        sweep(Turn::Resweep, r, s, v);
    }
}

// The main sweep, and then k resweeps, of as many points as v has. Before the sweeps v holds anything.
fn sweep_apart(p: Phases, k: u16, r: usize, s: &mut [u8], v: &mut [Vec3])
    requires { Ready (length v.old) r s.old × Calm (length v.old) s.old }
    ensures { Ran p k (length v.old) r s.old s.new }
{
    velocities::gather(s, v);
    sweep(Turn::Main(p), r, s, v);
    resweeps(k, r, s, v);
    velocities::scatter(v, s);
}

// The same of n points; the numbers are the head's, each used alone. The velocities are on the stack: a run is called from C, with fixed
// memory and without an allocator.
pub fn sweep_all(p: Phases, k: u16, n: usize, r: usize, s: &mut [u8])
    requires { Ready n r s.old × Calm n s.old }
    ensures { Ran p k n r s.old s.new }
{
    let mut all = [Vec3::zero(); 4096];
    sweep_apart(p, k, r, s, &mut all[..n]);
}
