// Replays stored frames, good and damaged, and compares check's number and place with those stored. The file `frames` is written by
// generate.py, which says how it is laid out.
#![tactic(auto)]

ghost use Rattle.std.specs.Prelude.{◌≡◌, ◌+◌, ◌*◌, ◌<◌, ◌≤◌, length, IfSome};
ghost use Rattle.little_endian.specs.Bytes.{le16, le32};
ghost use Rattle.replay_frames.specs.Entries as spec;

use little_endian::{get_u16, get_u32, put_u16, put_u32};
use records::Answer;
use replay::{Tally, read_full};
use std::fs::File;
use std::io;
use std::io::Read;

// The base of every frame, and the bytes of an entry.
const BASE: usize = 4096;

const ENTRY: usize = 22;

// So many batches of so many bytes are read at most: 65,536 entries.
const BATCHES: usize = 64;

const BATCH: usize = 1024 * ENTRY;

// It only writes, which no contract can say.
fn main(rt: HostRuntime) -> io::Result<()> {
    let mut file = File::open(&rt, "frames")?;
    let mut base = [0; BASE];
    read_full(&mut file, &mut base);
    let t = replay_all(&base, &mut file);
    println!(rt; "{} frames, {} answered otherwise", t.records, t.differ)
}

// The entries that the input has, at most 65,536 of them: a failed read counts as its end.
fn replay_all<R: Read>(base: &[u8; BASE], input: &mut R) -> Tally
    ensures counted { spec.Counted base.now result.records result.differ }
    ensures few { result.records ≤ 65536 }
    ensures there { IfSome (R.remaining input.old) (λ xs. 22 * result.records ≤ length xs) }
{
    let mut tally = Tally::NONE;
    let mut batch = [0; BATCH];
    for _ in 0..BATCHES {
        let n = read_full(input, &mut batch);
        tally = tally + replay(base, &batch[..n]);
        if n < BATCH {
            break;
        }
    }
    tally
}

// How many entries there are, and how many of them check answers otherwise than stored.
fn replay(base: &[u8; BASE], entries: &[u8]) -> Tally
    ensures counted { spec.Counted base.now result.records result.differ }
    ensures all { (22 * result.records ≤ length entries.now) × (length entries.now < 22 * result.records + 22) }
{
    let mut tally = Tally::NONE;
    for entry in entries.as_chunks::<ENTRY>().0 {
        tally.count(as_stored(base, entry));
    }
    tally
}

// One entry: so many bytes of the base, two of its fields replaced, and the answer that is wanted.
fn as_stored(base: &[u8; BASE], entry: &[u8; ENTRY]) -> bool
    ensures { result ≡ spec.as_stored base.now entry.now }
{
    let mut frame = *base;
    put(&mut frame, entry, 2);
    put(&mut frame, entry, 10);
    let wanted = Answer {
        number: u32::from(get_u16(entry, 18)),
        place: u64::from(get_u16(entry, 20)),
    };
    answered(&frame, get_u16(entry, 0), wanted)
}

// Whether check answers so for the first `len` bytes; not where there are fewer.
fn answered(frame: &[u8], len: u16, wanted: Answer) -> bool
    ensures { result ≡ spec.answered frame.now len wanted.number wanted.place }
{
    frame
        .get(..usize::from(len))
        .is_some_and(|part| Answer::from(frame::check(part)) == wanted)
}

// The field that the entry has at byte k: a place, a width of 2 or 4, and the number that is put there, where it fits; nothing at another
// width.
fn put(frame: &mut [u8], entry: &[u8; ENTRY], k: usize)
    requires { k + 8 ≤ 22 }
    ensures { frame.new ≡ spec.put frame.old (le16 entry.now k) (le16 entry.now (k + 2)) (le32 entry.now (k + 4)) }
{
    let at = usize::from(get_u16(entry, k));
    let n = get_u32(entry, k + 4);
    match get_u16(entry, k + 2) {
        2 if at + 2 <= frame.len() => put_u16(frame, at, (n % 65536) as u16), // the lower half: u16 has no `From` of u32
        4 if at + 4 <= frame.len() => put_u32(frame, at, n),
        _ => {}
    }
}
