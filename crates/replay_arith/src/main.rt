// Replays the oracle's stored answers to the arithmetic through the proved functions, and writes for each of them how many answers
// differ. How data/ was made is in oracle/README.md, "Inputs and vectors", and what its words are in "The table".
#![tactic(auto)]

mod of_matrix;
mod of_real;
mod of_shape;
mod of_strain;
mod of_vector;
mod replayed;

use of_matrix::Matrix;
use of_real::Real;
use of_shape::Shape;
use of_strain::Strain;
use of_vector::Vector;
use replay::Tally;
use replayed::Replay;
use std::io;

// A function of the arithmetic, by the module that calls it.
#[derive(Clone, Copy)]
enum Function {
    Real(Real),
    Vector(Vector),
    Matrix(Matrix),
    Strain(Strain),
    Shape(Shape),
}

// It only writes, which no contract can say. The error is that of the last line, if it cannot be written.
fn main(rt: HostRuntime) -> io::Result<()> {
    let mut replay = Replay {
        rt: &rt,
        tally: Tally::NONE,
    };
    of_real::all(&mut replay);
    of_vector::all(&mut replay);
    of_matrix::all(&mut replay);
    of_strain::all(&mut replay);
    of_shape::all(&mut replay);
    replay::report(&rt, b"all", replay.tally)
}
