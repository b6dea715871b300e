// Reading a file of records, and reporting on it. A name is bytes, since a &str would ask more of a caller.
ghost use Rattle.std.specs.Prelude.{◌<◌, take};
ghost use Rattle.std.specs.Io.KnownBytes.{Consumes};
ghost use Rattle.std.specs.Str.{IsUtf8};
ghost use Rattle.replay.specs.Counts.{IsPrefixLen};

use crate::Tally;
use std::fs::Files;
use std::io::{Print, Read, Write};
use std::{fs, io, str};

// Reads the file into `buf`, and answers how many bytes it put there: none where it is missing or cannot be opened. Which they are no
// contract can say: they are the operating system's, and come only of a name that is text. It cannot fail, as it never could: who
// wants the error calls `fs::open`.
pub fn read(rt: &impl Files, name: &[u8], buf: &mut [u8]) -> usize
    ensures within { IsPrefixLen result buf.new }
    ensures named { 0 < result → IsUtf8 name.now }
{
    let path = str::from_utf8(name).ok();
    match path.and_then(|path| fs::open(rt, path).ok()) {
        Some(mut file) => read_full(&mut file, buf),
        None => 0,
    }
}

// Reads until `buf` is full, the input ends or a read fails, and answers how many bytes it put at the start of `buf`. What was read
// before a failed read stays, and counts.
pub fn read_full<R: Read>(input: &mut R, buf: &mut [u8]) -> usize
    ensures within { IsPrefixLen result buf.new }
    ensures bytes { Consumes (R.remaining input.old) (R.remaining input.new) (take result buf.new) }
{
    let mut done = 0;
    while done < buf.len() {
        let n = input.read(&mut buf[done..]).unwrap_or(0);
        if n == 0 {
            break;
        }
        done += n;
    }
    done
}

// It only writes, which no contract can say.
pub fn report(rt: &impl Print, name: &[u8], t: Tally) -> io::Result<()> {
    let mut out = io::writer(rt);
    out.write_all(name)?;
    writeln!(out, ": {} records, {} differ", t.records, t.differ)
}

#[cfg(test)]
mod tests {
    use super::*;

    // No clause says which bytes a file holds.
    #[test]
    fn reads_the_bytes_of_a_file(rt: HostRuntime) -> io::Result<()> {
        fs::write(&rt, "one.bin", b"\x00\x00\x80\x3f".as_slice())?;
        let mut buf = [7; 5];
        assert_eq!(rt; read(&rt, b"one.bin", &mut buf), 4);
        assert_eq!(rt; buf, *b"\x00\x00\x80\x3f\x07");
        let mut short = [7; 2];
        assert_eq!(rt; read(&rt, b"one.bin", &mut short), 2);
        assert_eq!(rt; short, *b"\x00\x00");
        for missing in [b"two.bin".as_slice(), b"\xff".as_slice()] {
            assert_eq!(rt; read(&rt, missing, &mut buf), 0);
        }
        Ok(())
    }
}
