// One record of a frame: what is due, and the tests of its fields.
#![tactic(auto)]

ghost use Rattle.std.specs.Prelude.{◌≡◌, ◌+◌, ◌≤◌, length, Some, is_some, IfSome, IfOk};
ghost use Rattle.little_endian.specs.Bytes.{le16, le32};
ghost use Rattle.records.specs.Answers.{refuse, number_of, answer_of, outcome};
ghost use Rattle.records.specs.Kinds.{number_of_kind, length_of};
ghost use Rattle.records.specs.Layout.{kind_at};
ghost use Rattle.records.specs.Outcomes.{refusal_of};
ghost use Rattle.records.specs.Text.{refused_text};
ghost use Rattle.records.specs.Records.{is_due, record_length, record_at, shape, record_tests};

mod fields;
mod head;
mod kinds;
pub mod layout;

use fields::Fields;
pub use head::Head;
pub use kinds::{Kind, RowKind, UnknownKind};
use std::fmt;

// Why a frame is refused, in the order of document 01's table.
#[derive(Clone, Copy, Debug, PartialEq, Eq)]
pub enum Refusal {
    NotWhole = 1,
    NotDue,
    TooMany,
    BadCode,
    NotFinite,
    Disordered,
    ColourFalls,
    ExtraBytes,
    Clash,
}

impl Refusal {
    // The table's number for it. `as`: an enum's number has no `From`.
    pub fn number(self) -> u32
        ensures { result ≡ number_of self }
    {
        self as u32
    }
}

// That a frame is refused: why, and at which byte's offset.
#[derive(Clone, Copy, Debug, PartialEq, Eq)]
pub struct Refused {
    pub why: Refusal,
    pub place: usize,
}

impl fmt::Display for Refused {
    ghost output = { λ refused. Some (refused_text refused) };

    fn fmt<W: fmt::Write>(&self, f: &mut fmt::Formatter<W>) -> fmt::Result {
        let number = self.why.number();
        let place = self.place;
        write!(f, "refused {number} at {place}")
    }
}

// What check and run answer to C: the refusal's number and place, 0 and 0 for a frame that is accepted.
#[repr(C)]
#[derive(Clone, Copy, Debug, PartialEq, Eq)]
pub struct Answer {
    pub number: u32,
    pub place: u64,
}

impl From<Result<(), Refused>> for Answer {
    ghost from_gives = { λ outcome answer. answer ≡ answer_of outcome };

    fn from(outcome: Result<(), Refused>) -> Answer {
        match outcome {
            Ok(()) => Answer {
                number: 0,
                place: 0,
            },
            Err(refused) => Answer {
                number: refused.why.number(),
                place: refused.place as u64, // u64 has no `From` of usize
            },
        }
    }
}

// What may stand at a place of the frame.
#[derive(Clone, Copy, Debug, PartialEq, Eq)]
pub enum Due {
    Head,
    Point,
    Row,
}

// Err of this refusal, at this place, where a test found something bad; else Ok.
#[tactic(auto, unfolding(crate::specs::Answers::outcome))]
pub fn refuse(bad: bool, why: Refusal, place: usize) -> Result<(), Refused>
    ensures { result ≡ outcome (refuse why place bad) }
{
    if bad {
        return Err(Refused { why, place });
    }
    Ok(())
}

// The kind of this number, if it is due and has this length.
#[tactic(auto, using(crate::proofs::ByKind::is_due_kind, crate::proofs::ByKind::no_kind_due))]
fn due_kind(due: Due, number: u16, len: u32) -> Option<Kind>
    ensures due { is_some result ≡ is_due due number len }
    ensures kind { IfSome result (λ kind. (number_of_kind kind ≡ number) × (length_of kind ≡ len)) }
{
    match Kind::try_from(number) {
        Ok(kind) if kind.due() == due && len == kind.length() => Some(kind),
        _ => None,
    }
}

// No frame is read by it: it tells a caller whether a kind and a length may stand at a place, and stays as a promise.
pub fn is_due(due: Due, kind: u16, len: u32) -> bool
    ensures { result ≡ is_due due kind len }
{
    due_kind(due, kind, len).is_some()
}

// The kind of the record that starts at off, if six bytes, a kind and length that are due and the whole record are there. That off lies in
// the frame is asked, here and below, as an index asks it: a type of both would be made anew for each record.
#[tactic(auto, using(crate::proofs::Shapes::shape_is, crate::proofs::Shapes::not_refused), unfolding(crate::specs::Answers::outcome))]
fn shape(due: Due, s: &[u8], off: usize) -> Result<Kind, Refused>
    requires { off ≤ length s.now }
    ensures refusal { refusal_of result ≡ outcome (shape due s.now off) }
    ensures kind { IfOk result (λ kind. (number_of_kind kind ≡ le16 s.now (off + kind_at)) × (length_of kind ≡ le32 s.now off)) }
{
    let left = s.len() - off;
    refuse(left < 6, Refusal::NotWhole, off)?;
    let len = little_endian::get_u32(s, off);
    let number = little_endian::get_u16(s, off + layout::KIND_AT);
    let kind = due_kind(due, number, len).ok_or(Refused {
        why: Refusal::NotDue,
        place: off,
    })?;
    // `as`: usize has no `From` of u32.
    refuse(left < 4 + (len as usize), Refusal::NotWhole, off)?;
    Ok(kind)
}

// The bytes of the record that starts at off, as a part of the frame.
pub fn record_at(s: &[u8], off: usize) -> &[u8]
    requires { off + record_length s.now off ≤ length s.now }
    ensures { (result.now ≡ record_at s.now off) × (length result.now ≡ record_length s.now off) }
{
    // `as`: usize has no `From` of u32.
    let end = off + 4 + (little_endian::get_u32(s, off) as usize);
    &s[off..end]
}

// The tests of the record that starts at off; c is the colour of the row before.
#[tactic(auto, using(crate::proofs::Firsts::outcome_append), unfolding(crate::specs::Records::record_tests))]
pub fn record_test(due: Due, s: &[u8], off: usize, c: u16) -> Result<(), Refused>
    requires { off ≤ length s.now }
    ensures { result ≡ outcome (record_tests due s.now off c) }
{
    let kind = shape(due, s, off)?;
    let fields = Fields {
        bytes: record_at(s, off),
        start: off,
    };
    fields.test(kind, c)
}
