// Replays stored frames through the exported `check` and `run`: check's number and place, run's number and place, and every byte
// afterwards must be those stored. The file `runs` holds the frames one behind the other: the frame's length, the number and the place,
// each a u32, then the frame, and then the frame afterwards. There are whole samples, and small frames that together take every branch of
// the row functions; the oracle's command `run_vectors` writes it.
#![tactic(auto)]

ghost use Rattle.std.specs.Prelude.{◌≡◌, ◌≤◌, length, IfSome};
ghost use Rattle.replay_runs.specs.Entries as spec;

use little_endian::get_u32;
use records::Answer;
use replay::{Tally, read_full};
use std::fs::File;
use std::io;
use std::io::Read;

// Frames of at most so many bytes are stored.
const ROOM: usize = 40960;

// At most so many entries are tried.
const MOST: usize = 65536;

// It only writes, which no contract can say.
fn main(rt: HostRuntime) -> io::Result<()> {
    let mut file = File::open(&rt, "runs")?;
    let mut frame = [0; ROOM];
    let mut after = [0; ROOM];
    let t = replay(&mut file, &mut frame, &mut after);
    println!(rt; "{} frames, {} end otherwise", t.records, t.differ)
}

// How many frames were run, and how many of them ended otherwise. An entry that is not whole, or has no room in the two buffers, is the
// end, and a failed read is too.
fn replay<R: Read>(input: &mut R, frame: &mut [u8], after: &mut [u8]) -> Tally
    ensures counted { spec.Counted result.records result.differ }
    ensures few { result.records ≤ 65536 }
{
    let mut tally = Tally::NONE;
    for _ in 0..MOST {
        let Some(entry) = next(input, frame, after) else {
            break;
        };
        tally.count(entry.as_stored());
    }
    tally
}

// A stored frame, the answer that check and run must give for it, and the bytes that run must leave.
#[derive(Drop)]
struct Entry<'a> {
    frame: &'a mut [u8],
    answer: Answer,
    after: &'a [u8],
}

impl Entry<'_> {
    // Whether check and run answer as stored for the frame, and run leaves the bytes that are stored.
    fn as_stored(self) -> bool
        ensures { result ≡ spec.as_stored self.entry.frame.now
            self.entry.answer.number self.entry.answer.place self.entry.after.now }
    {
        let frame = self.frame;
        let checked = Answer::from(run::check(frame));
        let returned = Answer::from(run::run(frame));
        (checked == self.answer) & (returned == self.answer) & equal(frame, self.after)
    }
}

// A function of its own: a proof of `==` wants both slices lent alike, and of these one is lent to be changed.
fn equal(a: &[u8], b: &[u8]) -> bool
    ensures { result ≡ spec.equal a.now b.now }
{
    a == b
}

// The next entry of the input, read into the two buffers: none where there is no whole one, or no room for it.
fn next<'a, R: Read>(input: &mut R, frame: &'a mut [u8], after: &'a mut [u8]) -> Option<Entry<'a>>
    ensures { IfSome result (λ e. length e.after.now ≡ length e.frame.now) }
{
    let mut head = [0; 12];
    let head = filled(input, &mut head, 12)?;
    let n = get_u32(head, 0) as usize; // usize has no `From` of u32
    let answer = Answer {
        number: get_u32(head, 4),
        place: u64::from(get_u32(head, 8)),
    };
    let frame = filled(input, frame, n)?;
    let after = filled(input, after, n)?;
    Some(Entry {
        frame,
        answer,
        after,
    })
}

// The first n bytes of the buffer, read from the input: none where there are fewer, or where the buffer is shorter.
fn filled<'a, R: Read>(input: &mut R, buf: &'a mut [u8], n: usize) -> Option<&'a mut [u8]>
    ensures { IfSome result (λ part. length part.now ≡ n) }
{
    let part = buf.get_mut(..n)?;
    if read_full(input, part) < n {
        return None;
    }
    Some(part)
}
