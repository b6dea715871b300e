// The exports of the crate `row`: the phases of a row of any kind, on the bytes of its record as a frame has them. A caller's bytes may be
// anything: those that are no row's record are left alone, and the answer says so.
ghost use Rattle.std.specs.Prelude.{◌≡◌, ◌+◌, ◌*◌, ◌≤◌, length};
ghost use Rattle.rows_ffi.specs.Mirrors.{as_holds, as_lost};
ghost use Rattle.rows_ffi.specs.Record as spec;

use crate::mirrors::{Holds, Lost};
use records::{Due, Kind, layout};

// Whether the bytes are a record, whole: its length says so, it has a row's kind, and room for the fields of that kind.
fn is_record(b: &[u8]) -> bool
    ensures { result ≡ spec.is_record b.now }
{
    if b.len() < 6 {
        return false;
    }
    let Ok(kind) = Kind::try_from(little_endian::get_u16(b, layout::KIND_AT)) else {
        return false;
    };
    let n = little_endian::get_u32(b, 0); // `as` below: usize has no `From` of u32
    kind.due() == Due::Row && 4 + (n as usize) == b.len() && kind.length() <= n
}

// Whether a pattern is no NaN's, or the one that is written. By bits it has no branch.
#[tactic(auto, unfolding(crate::specs::Record::is_written))]
fn is_written(n: u32) -> bool
    ensures { result ≡ spec.is_written n }
{
    (n % 0x8000_0000 <= 0x7f80_0000) | (n == floats::NAN)
}

// Whether n floats from the first of a row on are. There is no way out before the last, so that the compiler tests several at once.
fn all_written(b: &[u8], n: usize) -> bool
    requires { 30 + 4 * n ≤ length b.now }
    ensures { result ≡ spec.all_written n b.now }
{
    let mut all = true;
    for i in 0..n {
        all &= is_written(little_endian::get_u32(b, layout::ROW_POS + 4 * i));
    }
    all
}

// Whether the bytes are one row's record, with floats as they are written.
fn is_row(b: &[u8]) -> bool
    ensures { result ≡ spec.is_row b.now }
{
    is_record(b) && all_written(b, (b.len() - layout::ROW_POS) / 4)
}

#[unsafe(no_mangle)]
pub extern "C" fn rt_row_update(s: &mut [u8], held: Holds, least: f32) -> bool
    ensures { (result ≡ spec.is_row s.old) × (s.new ≡ spec.updated least (as_holds held) s.old) }
{
    if is_row(s) {
        row::update_row(s, held.into(), least);
        return true;
    }
    false
}

// By an `if`, as the next: `then` does not say that what it is given is left uncalled where it gives None, so that nothing is known of s.
#[unsafe(no_mangle)]
pub extern "C" fn rt_row_warm(s: &mut [u8], coeff: f32) -> Lost
    ensures { (as_lost result ≡ spec.warm_lost coeff s.old) × (s.new ≡ spec.warmed coeff s.old) }
{
    if is_row(s) {
        return Some(row::warm_row(s, coeff)).into();
    }
    None.into()
}

#[unsafe(no_mangle)]
pub extern "C" fn rt_row_solve(s: &mut [u8], vel: Holds) -> Lost
    ensures { (as_lost result ≡ spec.solve_lost (as_holds vel) s.old) × (s.new ≡ spec.solved (as_holds vel) s.old) }
{
    if is_row(s) {
        return Some(row::solve_row(s, vel.into())).into();
    }
    None.into()
}
