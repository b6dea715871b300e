// The functions of the crates `strain` and `inverse`.
ghost use Rattle.replay.specs.Tallies.{Through};
ghost use Rattle.replay_arith.specs.OfStrain as spec;

use crate::{Function, Replay};
use std::fs::Files;
use std::io::Print;

#[derive(Clone, Copy)]
pub(crate) enum Strain {
    Add6,
    Sub6,
    Scale6,
    ComponentMul6,
    Dot6,
    MatVec,
    MatMul,
    Add36,
    Scale36,
    Ger,
    FromDiagonal,
    Identity6,
    TryInverse,
}

// Each with the words of its records, and whether the function's answer to a record's first words is what stands after them.
pub(crate) fn all<R: Files + Print>(replay: &mut Replay<R>)
    ensures { Through spec.files replay.old.tally replay.new.tally }
{
    replay.file(
        Function::Strain(Strain::Add6),
        "add6.bin",
        18,
        |w| w.holds(12, strain::add::<6>(&w.at(0), &w.at(6))),
    );
    replay.file(
        Function::Strain(Strain::Sub6),
        "sub6.bin",
        18,
        |w| w.holds(12, strain::sub::<6>(&w.at(0), &w.at(6))),
    );
    replay.file(
        Function::Strain(Strain::Scale6),
        "scale6.bin",
        13,
        |w| w.holds(7, strain::scale::<6>(&w.at(0), w.at(6))),
    );
    replay.file(
        Function::Strain(Strain::ComponentMul6),
        "component_mul6.bin",
        18,
        |w| w.holds(12, strain::component_mul::<6>(&w.at(0), &w.at(6))),
    );
    replay.file(
        Function::Strain(Strain::Dot6),
        "dot6.bin",
        13,
        |w| w.holds(12, strain::dot6(&w.at(0), &w.at(6))),
    );
    replay.file(
        Function::Strain(Strain::MatVec),
        "mat_vec.bin",
        48,
        |w| w.holds(42, strain::mat_vec(&w.at(0), &w.at(36))),
    );
    replay.file(
        Function::Strain(Strain::MatMul),
        "mat_mul.bin",
        108,
        |w| w.holds(72, strain::mat_mul(&w.at(0), &w.at(36))),
    );
    replay.file(
        Function::Strain(Strain::Add36),
        "add36.bin",
        108,
        |w| w.holds(72, strain::add::<36>(&w.at(0), &w.at(36))),
    );
    replay.file(
        Function::Strain(Strain::Scale36),
        "scale36.bin",
        73,
        |w| w.holds(37, strain::scale::<36>(&w.at(0), w.at(36))),
    );
    replay.file(
        Function::Strain(Strain::Ger),
        "ger.bin",
        79,
        |w| w.holds(43, strain::ger(w.at(0), &w.at(1), &w.at(7))),
    );
    replay.file(
        Function::Strain(Strain::FromDiagonal),
        "from_diagonal.bin",
        42,
        |w| w.holds(6, strain::from_diagonal(&w.at(0))),
    );
    replay.file(
        Function::Strain(Strain::Identity6),
        "identity6.bin",
        36,
        |w| w.holds(0, strain::identity6()),
    );
    replay.file(
        Function::Strain(Strain::TryInverse),
        "try_inverse.bin",
        72,
        |w| w.holds(36, inverse::try_inverse(&w.at(0))),
    );
}
