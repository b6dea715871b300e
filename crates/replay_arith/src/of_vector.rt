// The functions of the crate `vector` on vectors.
ghost use Rattle.replay.specs.Tallies.{Through};
ghost use Rattle.replay_arith.specs.OfVector as spec;

use crate::{Function, Replay};
use std::fs::Files;
use std::io::Print;
use vector::Vec3;

#[derive(Clone, Copy)]
pub(crate) enum Vector {
    Dot,
    Cross,
    Length,
    LengthSquared,
    ElementSum,
    Add,
    Sub,
    Scale,
    Divide,
    Neg,
}

// Each with the words of its records, and whether the function's answer to a record's first words is what stands after them.
pub(crate) fn all<R: Files + Print>(replay: &mut Replay<R>)
    ensures { Through spec.files replay.old.tally replay.new.tally }
{
    replay.file(
        Function::Vector(Vector::Dot),
        "dot.bin",
        7,
        |w| w.holds(6, w.at::<Vec3>(0).dot(w.at(3))),
    );
    replay.file(
        Function::Vector(Vector::Cross),
        "cross.bin",
        9,
        |w| w.holds(6, w.at::<Vec3>(0).cross(w.at(3))),
    );
    replay.file(
        Function::Vector(Vector::Length),
        "length.bin",
        4,
        |w| w.holds(3, w.at::<Vec3>(0).length()),
    );
    replay.file(
        Function::Vector(Vector::LengthSquared),
        "length_squared.bin",
        4,
        |w| w.holds(3, w.at::<Vec3>(0).length_squared()),
    );
    replay.file(
        Function::Vector(Vector::ElementSum),
        "element_sum.bin",
        4,
        |w| w.holds(3, w.at::<Vec3>(0).element_sum()),
    );
    replay.file(
        Function::Vector(Vector::Add),
        "add.bin",
        9,
        |w| w.holds(6, w.at::<Vec3>(0) + w.at::<Vec3>(3)),
    );
    replay.file(
        Function::Vector(Vector::Sub),
        "sub.bin",
        9,
        |w| w.holds(6, w.at::<Vec3>(0) - w.at::<Vec3>(3)),
    );
    replay.file(
        Function::Vector(Vector::Scale),
        "scale.bin",
        7,
        |w| w.holds(4, w.at::<Vec3>(0) * w.at::<f32>(3)),
    );
    replay.file(
        Function::Vector(Vector::Divide),
        "divide.bin",
        7,
        |w| w.holds(4, w.at::<Vec3>(0) / w.at::<f32>(3)),
    );
    replay.file(
        Function::Vector(Vector::Neg),
        "neg.bin",
        6,
        |w| w.holds(3, -w.at::<Vec3>(0)),
    );
}
