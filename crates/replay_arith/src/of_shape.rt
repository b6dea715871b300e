// The functions of the crates `linalg` and `shape`.
ghost use Rattle.replay.specs.Tallies.{Through};
ghost use Rattle.replay_arith.specs.OfShape as spec;

use crate::{Function, Replay};
use shape::{cell, rotation};
use std::fs::Files;
use std::io::Print;

#[derive(Clone, Copy)]
pub(crate) enum Shape {
    SymmetricEigen,
    Cofactor,
    OuterProduct,
    ExtractRotation,
    CellVolume,
    CellVolumeGradients,
    CellEdgeMatrix,
}

// Each with the words of its records, and whether the function's answer to a record's first words is what stands after them.
pub(crate) fn all<R: Files + Print>(replay: &mut Replay<R>)
    ensures { Through spec.files replay.old.tally replay.new.tally }
{
    replay.file(
        Function::Shape(Shape::SymmetricEigen),
        "symmetric_eigen.bin",
        21,
        |w| {
            let r = linalg::symmetric_eigen(w.at(0));
            w.holds(9, r.values) & w.holds(12, r.vectors)
        },
    );
    replay.file(
        Function::Shape(Shape::Cofactor),
        "cofactor.bin",
        18,
        |w| w.holds(9, linalg::cofactor(w.at(0))),
    );
    replay.file(
        Function::Shape(Shape::OuterProduct),
        "outer_product.bin",
        15,
        |w| w.holds(6, linalg::outer_product(w.at(0), w.at(3))),
    );
    replay.file(
        Function::Shape(Shape::ExtractRotation),
        "extract_rotation.bin",
        17,
        |w| w.holds(13, rotation::extract_rotation(w.at(0), w.at(9))),
    );
    replay.file(
        Function::Shape(Shape::CellVolume),
        "cell_volume.bin",
        13,
        |w| w.holds(12, cell::cell_volume(w.at(0))),
    );
    replay.file(
        Function::Shape(Shape::CellVolumeGradients),
        "cell_volume_gradients.bin",
        24,
        |w| w.holds(12, cell::cell_volume_gradients(w.at(0))),
    );
    replay.file(
        Function::Shape(Shape::CellEdgeMatrix),
        "cell_edge_matrix.bin",
        21,
        |w| w.holds(12, cell::cell_edge_matrix(w.at(0))),
    );
}
