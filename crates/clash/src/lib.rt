// The clash test: in one pass, by a mark for each point.
#![tactic(auto)]

ghost use Rattle.std.specs.Prelude.{◌≡◌, [], ◌≤◌, length};
ghost use Rattle.records.specs.Answers.{outcome, Passed};
ghost use Rattle.records.specs.Records.{records_tests};
ghost use Rattle.records.specs.declared.Due as due;
ghost use Rattle.clash.specs.Clash.{count_of, clash_tests};
ghost use Rattle.clash.specs.Marks.{names_of, is_marked, clashing, mark_with, mark_row};

use records::{Refusal, Refused, RowKind, layout};
use std::array::from_fn;

// The colour of the overflow, whose rows may name what others name: the frame's own number, so that a colour is no Option.
const OVERFLOW: u16 = 65535;

// A row's colour, and the ids at its four places, as far as it names them.
#[derive(Clone, Copy)]
pub struct Names {
    pub colour: u16,
    pub ids: [Option<u32>; 4],
}

// How many ids a row names.
#[tactic(auto, unfolding(crate::specs::Clash::count_of))]
pub fn count_of(b: &[u8]) -> u16
    requires { 30 ≤ length b.now }
    ensures { result ≡ count_of b.now }
{
    match RowKind::of(b) {
        RowKind::Scalar => little_endian::get_u16(b, layout::SCALAR_COUNT),
        RowKind::Corotational | RowKind::NeoHookean => 4,
    }
}

// As Options, where `row::Record::names` has ids: what a row does not count is told apart here, and is one with NOBODY there.
#[tactic(auto, unfolding(crate::specs::Marks::names_of))]
fn names_of(b: &[u8]) -> Names
    requires { 30 ≤ length b.now }
    ensures { result ≡ names_of b.now }
{
    let count = usize::from(count_of(b));
    Names {
        colour: little_endian::get_u16(b, layout::ROW_COLOUR),
        ids: from_fn(|i| (i < count).then_some(little_endian::get_u32(b, layout::ROW_IDS + 4 * i))),
    }
}

// ---- the marks, one for each point: the colour of the row that named it last, None where none did

#[tactic(auto, unfolding(crate::specs::Marks::marked_at))]
fn is_marked(marks: &[Option<u16>], colour: u16, id: Option<u32>) -> bool
    ensures { result ≡ is_marked marks.now colour id }
{
    // `as`, here and below: usize has no `From` of u32.
    id.is_some_and(|id| marks.get(id as usize) == Some(&Some(colour)))
}

#[tactic(auto, unfolding(crate::specs::Marks::clashing))]
fn is_clashing(marks: &[Option<u16>], q: Names) -> bool
    ensures { result ≡ clashing marks.now q }
{
    q.colour != OVERFLOW && q.ids.iter().any(move |id| is_marked(marks, q.colour, *id))
}

#[tactic(auto, unfolding(crate::specs::Marks::mark_with))]
fn mark_one(marks: &mut [Option<u16>], colour: u16, id: Option<u32>)
    ensures { marks.new ≡ mark_with marks.old colour id }
{
    // By index: the contract of `get_mut` does not say what the slice holds after it.
    if let Some(id) = id
        && (id as usize) < marks.len()
    {
        marks[id as usize] = Some(colour);
    }
}

#[tactic(auto, unfolding(crate::specs::Marks::mark_row))]
fn mark_row(marks: &mut [Option<u16>], q: Names)
    ensures { marks.new ≡ mark_row marks.old q }
{
    if q.colour != OVERFLOW {
        for id in q.ids {
            mark_one(marks, q.colour, id);
        }
    }
}

// Of k rows that passed their own tests, the first at `at`, the first that clashes with an earlier one.
pub fn clash_test(n: usize, k: usize, s: &[u8], at: usize) -> Result<(), Refused>
    requires { (n ≤ 4096) × Passed (records_tests due.Due.Row k s.now at 0) }
    ensures { result ≡ outcome (clash_tests n k s.now at []) }
{
    // On the stack: check is called from C, with fixed memory and without an allocator.
    let mut all: [Option<u16>; 4096] = [None; 4096];
    let marks = &mut all[..n];
    // An iterator of places and records would have to test again what is known here, that each record is whole.
    let mut off = at;
    for _ in 0..k {
        let b = records::record_at(s, off);
        let q = names_of(b);
        records::refuse(is_clashing(marks, q), Refusal::Clash, off)?;
        mark_row(marks, q);
        off += b.len();
    }
    Ok(())
}
