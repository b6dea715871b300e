// formrun: reads a frame of at most 65,536 bytes from standard input and writes the frame after the run; a refused frame gives one line,
// longer input another.
//
// Proved: the bytes that `answer` gives are `output_of` of the frame's; and where it is known which bytes a reader gives and a writer
// holds, `serve` reads to the end, or as far as decides, and has written `output_of` of what was there, unless a read or a write fails.
// Not covered: that they go out in one write, which no clause says; and which bytes the C library's `read` puts into a buffer and its
// `write` takes out of one: of standard input and output it is not known.
// Where a read or a write fails, a line on standard error says so, and the status is 1; after a read that failed nothing is written.
#![tactic(auto)]

ghost use Rattle.std.specs.Prelude.{◌≡◌, ℕ, ◌-◌, ◌≤◌, length, drop, OnOk, IfOk, IfSome};
ghost use Rattle.std.specs.Io.KnownBytes.{ReadConsumes, Appends};
ghost use Rattle.records.specs.Answers.{number_of};
ghost use Rattle.formrun.specs.Reading.{Within, Kept, Brought};
ghost use Rattle.formrun.specs.Output.{output_of, refusal};

use arrayvec::ArrayString;
use itoa::Buffer;
use records::Refused;
use std::io;
use std::io::{Read, Write};

// A frame has at most so many bytes.
const MOST: usize = 65536;

// One byte more than a frame may have: a buffer that is full shows that the input is too long.
const ROOM: usize = 65537;

// The longest line of a refusal: `refused `, a number of at most 10 digits, ` at `, a place of at most 20, a newline.
const LINE: usize = 8 + 10 + 4 + 20 + 1;

// One read to the bytes of buf from `done` on: 0 bytes at the end of the input. What was read before stays.
fn read_more<R: Read>(input: &mut R, buf: &mut [u8], done: usize) -> io::Result<usize>
    requires { done ≤ length buf.old }
    ensures within { Within (length buf.old - done) result }
    ensures kept { Kept done buf.old buf.new }
    ensures bytes { ReadConsumes (R.remaining input.old) (R.remaining input.new) result (drop done buf.new) }
{
    input.read(&mut buf[done..])
}

// Reads until the input ends or buf is full. A read may bring fewer bytes than there is room for.
fn read_input<R: Read>(input: &mut R, buf: &mut [u8]) -> io::Result<usize>
    ensures within { Within (length buf.old) result }
    ensures bytes { IfOk result (λ n. IfSome (R.remaining input.old) (Brought n buf.new)) }
{
    let mut done = 0;
    while done < buf.len() {
        let n = read_more(input, buf, done)?;
        if n == 0 {
            break;
        }
        done += n;
    }
    Ok(done)
}

// The line that tells of a refusal.
fn refusal_line(refused: Refused) -> ArrayString<LINE>
    ensures { result.bytes ≡ refusal (number_of refused.why) refused.place }
{
    let number = refused.why.number();
    let place = refused.place;
    let mut digits = Buffer::new();
    let mut line = ArrayString::new();
    line.push_str("refused ");
    line.push_str(digits.format(number));
    line.push_str(" at ");
    line.push_str(digits.format(place));
    line.push_str("\n");
    line
}

// Runs the frame: what is to be written, which is the frame afterwards or the line of its refusal.
fn answer<'a>(frame: &'a mut [u8], line: &'a mut ArrayString<LINE>) -> &'a [u8]
    ensures { result.now ≡ output_of frame.old }
{
    if MOST < frame.len() {
        return b"too long\n";
    }
    match run::run(frame) {
        Ok(()) => frame,
        Err(refused) => {
            *line = refusal_line(refused);
            line.as_str().as_bytes()
        }
    }
}

// From the input to the output, by way of buf.
fn serve<R: Read, W: Write>(input: &mut R, output: &mut W, buf: &mut [u8; ROOM]) -> io::Result<()>
    ensures { OnOk result (IfSome (R.remaining input.old) (λ xs. Appends (W.contents output.old) (W.contents output.new) (output_of xs))) }
{
    let len = read_input(input, buf)?;
    let mut line = ArrayString::new();
    let bytes = answer(&mut buf[..len], &mut line);
    output.write_all(bytes)
}

fn main(rt: HostRuntime) -> io::Result<()> {
    let mut buf = [0; ROOM];
    serve(&mut rt.stdin(), &mut rt.stdout(), &mut buf)
}
