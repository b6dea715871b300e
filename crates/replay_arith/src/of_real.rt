// The functions of the crates `root` and `real`.
ghost use Rattle.replay.specs.Tallies.{Through};
ghost use Rattle.replay_arith.specs.OfReal as spec;

use crate::{Function, Replay};
use std::fs::Files;
use std::io::Print;

#[derive(Clone, Copy)]
pub(crate) enum Real {
    Root,
    SinCos,
    Acos,
    Max,
    Clamp,
    Signum,
    Abs,
    Inv,
    RemTurn,
}

// Each with the words of its records, and whether the function's answer to a record's first words is what stands after them.
pub(crate) fn all<R: Files + Print>(replay: &mut Replay<R>)
    ensures { Through spec.files replay.old.tally replay.new.tally }
{
    replay.file(
        Function::Real(Real::Root),
        "root.bin",
        2,
        |w| w.holds(1, root::root(w.at(0))),
    );
    replay.file(Function::Real(Real::SinCos), "sin_cos.bin", 3, |w| {
        let r = real::sin_cos(w.at(0));
        w.holds(1, r.s) & w.holds(2, r.c)
    });
    replay.file(
        Function::Real(Real::Acos),
        "acos.bin",
        2,
        |w| w.holds(1, real::acos(w.at(0))),
    );
    replay.file(
        Function::Real(Real::Max),
        "max.bin",
        3,
        |w| w.holds(2, real::max(w.at(0), w.at(1))),
    );
    replay.file(
        Function::Real(Real::Clamp),
        "clamp.bin",
        4,
        |w| w.holds(3, real::clamp(w.at(0), w.at(1), w.at(2))),
    );
    replay.file(
        Function::Real(Real::Signum),
        "signum.bin",
        2,
        |w| w.holds(1, real::signum(w.at(0))),
    );
    replay.file(
        Function::Real(Real::Abs),
        "abs.bin",
        2,
        |w| w.holds(1, real::abs(w.at(0))),
    );
    replay.file(
        Function::Real(Real::Inv),
        "inv.bin",
        2,
        |w| w.holds(1, real::inv(w.at(0))),
    );
    replay.file(
        Function::Real(Real::RemTurn),
        "rem_turn.bin",
        2,
        |w| w.holds(1, real::rem_turn(w.at(0))),
    );
}
