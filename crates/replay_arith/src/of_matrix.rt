// The functions of the crate `vector` on matrices and quaternions.
ghost use Rattle.replay.specs.Tallies.{Through};
ghost use Rattle.replay_arith.specs.OfMatrix as spec;

use crate::{Function, Replay};
use std::fs::Files;
use std::io::Print;
use vector::{Mat3, Quat, Vec3};

#[derive(Clone, Copy)]
pub(crate) enum Matrix {
    MulVec,
    MulMat,
    AddMat,
    SubMat,
    ScaleMat,
    Transpose,
    Determinant,
    Product,
    Normalise,
    ToMatrix,
    FromAxisAngle,
}

// Each with the words of its records, and whether the function's answer to a record's first words is what stands after them.
pub(crate) fn all<R: Files + Print>(replay: &mut Replay<R>)
    ensures { Through spec.files replay.old.tally replay.new.tally }
{
    replay.file(
        Function::Matrix(Matrix::MulVec),
        "mul_vec.bin",
        15,
        |w| w.holds(12, w.at::<Mat3>(0) * w.at::<Vec3>(9)),
    );
    replay.file(
        Function::Matrix(Matrix::MulMat),
        "mul_mat.bin",
        27,
        |w| w.holds(18, w.at::<Mat3>(0) * w.at::<Mat3>(9)),
    );
    replay.file(
        Function::Matrix(Matrix::AddMat),
        "add_mat.bin",
        27,
        |w| w.holds(18, w.at::<Mat3>(0) + w.at::<Mat3>(9)),
    );
    replay.file(
        Function::Matrix(Matrix::SubMat),
        "sub_mat.bin",
        27,
        |w| w.holds(18, w.at::<Mat3>(0) - w.at::<Mat3>(9)),
    );
    replay.file(
        Function::Matrix(Matrix::ScaleMat),
        "scale_mat.bin",
        19,
        |w| w.holds(10, w.at::<Mat3>(0) * w.at::<f32>(9)),
    );
    replay.file(
        Function::Matrix(Matrix::Transpose),
        "transpose.bin",
        18,
        |w| w.holds(9, w.at::<Mat3>(0).transpose()),
    );
    replay.file(
        Function::Matrix(Matrix::Determinant),
        "determinant.bin",
        10,
        |w| w.holds(9, w.at::<Mat3>(0).determinant()),
    );
    replay.file(
        Function::Matrix(Matrix::Product),
        "product.bin",
        12,
        |w| w.holds(8, w.at::<Quat>(0) * w.at::<Quat>(4)),
    );
    replay.file(
        Function::Matrix(Matrix::Normalise),
        "normalise.bin",
        8,
        |w| w.holds(4, w.at::<Quat>(0).normalise()),
    );
    replay.file(
        Function::Matrix(Matrix::ToMatrix),
        "to_matrix.bin",
        13,
        |w| w.holds(4, w.at::<Quat>(0).to_matrix()),
    );
    replay.file(
        Function::Matrix(Matrix::FromAxisAngle),
        "from_axis_angle.bin",
        8,
        |w| w.holds(4, Quat::from_axis_angle(w.at(0), w.at(3))),
    );
}
