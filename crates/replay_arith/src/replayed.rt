// Files of records replayed one after another.
ghost use Rattle.std.specs.Prelude.{◌≡◌, ℕ, ◌*◌, ◌<◌, ◌≤◌, ◌^◌, Bool, List, length};
ghost use Rattle.replay.specs.Tallies.{Tallied, Replayed};
ghost use Rattle.replay_arith.specs.Agrees.{agreed, Tells};

use crate::Function;
use replay::{Record, Tally};
use std::fs::Files;
use std::io::Print;

// Of a file's records so many bytes count at most.
const ROOM: usize = 65536;

// What came of the files so far.
#[derive(Drop)]
pub(crate) struct Replay<'a, R> {
    pub(crate) rt: &'a R,
    pub(crate) tally: Tally,
}

impl<R: Files + Print> Replay<'_, R> {
    // Replays the file of a function, whose records have `size` words, and adds what came of it. Of a record `agrees` tells whether
    // the function answers as stored: that it tells of this function is what `_function` is for. A line that cannot be written is passed
    // over: `main` answers what came of the last one.
    pub(crate) fn file<F: Fn(Record) -> bool + Drop>(
        &mut self,
        _function: Function,
        name: &str,
        size: usize,
        agrees: F,
    )
        requires words { (1 ≤ size) × (4 * size < 2 ^ 64) }
        requires callable { (r : Record) → length r.bytes.now ≡ 4 * size → F.pre agrees r }
        requires tells { Tells F.Fn agrees (agreed _function) }
        ensures { Replayed (agreed _function) size self.old.tally self.new.tally }
    {
        let name = name.as_bytes();
        let mut buf = [0; ROOM];
        let n = replay::read(self.rt, name, &mut buf);
        let tally = walk(&buf[..n], size, &agrees);
        let _ = replay::report(self.rt, name, tally);
        self.tally = self.tally + tally;
    }
}

fn walk<F: Fn(Record) -> bool>(s: &[u8], size: usize, agrees: &F) -> Tally
    requires words { (1 ≤ size) × (4 * size < 2 ^ 64) }
    requires callable { (r : Record) → length r.bytes.now ≡ 4 * size → F.pre agrees.now r }
    ensures { (told : List ℕ → Bool) → Tells F.Fn agrees.now told → Tallied told s.now size result }
{
    let mut tally = Tally::NONE;
    for bytes in s.chunks_exact(4 * size) {
        tally.count(agrees(Record { bytes }));
    }
    tally
}
