// A whole frame: check, for every list of bytes of any length.
#![tactic(auto)]

ghost use Rattle.std.specs.Prelude.{◌≡◌, ◌≤◌, length, IfOk};
ghost use Rattle.records.specs.Answers.{outcome, answer_of};
ghost use Rattle.records.specs.Outcomes.{refusal_of};
ghost use Rattle.records.specs.Records.{records_tests, end_of};
ghost use Rattle.frame.specs.Check.{check_of};

use records::{Due, Head, Refusal, Refused, layout};

// The tests of k records, the first at `at`, each of what is due: the place behind the last of them. Points and rows go through one loop,
// so that each record is handed the colour before it, which a row alone is tested against. That `at` lies in the frame is asked as records'
// `shape` asks it.
fn records_test(due: Due, k: usize, s: &[u8], at: usize) -> Result<usize, Refused>
    requires { at ≤ length s.now }
    ensures refusal { refusal_of result ≡ outcome (records_tests due k s.now at 0) }
    ensures end { IfOk result (λ end. (end ≡ end_of k s.now at) × (end ≤ length s.now)) }
{
    // No iterator of records: that one is whole is known only once it is tested.
    let mut off = at;
    let mut colour = 0;
    for _ in 0..k {
        records::record_test(due, s, off, colour)?;
        let b = records::record_at(s, off);
        // Of a point these are bytes of its position: they are handed on, and no test of a point reads them.
        colour = little_endian::get_u16(b, layout::ROW_COLOUR);
        off += b.len();
    }
    Ok(off)
}

// Ok for a frame that is accepted, else the first refusal, with document 01's number and place.
#[tactic(auto, using(crate::proofs::Answered::check_is, crate::proofs::Answered::frame_outcome), unfolding(crate::specs::Check::extra))]
pub fn check(frame: &[u8]) -> Result<(), Refused>
    ensures { answer_of result ≡ check_of frame.now }
{
    records::record_test(Due::Head, frame, 0, 0)?;
    let head = Head { bytes: frame };
    let (n, r) = (head.points(), head.rows());
    let at = records_test(Due::Point, n, frame, layout::HEAD_END)?;
    let end = records_test(Due::Row, r, frame, at)?;
    records::refuse(end < frame.len(), Refusal::ExtraBytes, end)?;
    clash::clash_test(n, r, frame, at)
}
