// The rules of rows and points as the bytes of their records, and of the run of a whole frame, stand in specs/. The code here is what
// records of every kind share.
#![tactic(auto)]

ghost use Rattle.std.specs.Prelude.{◌≡◌, ◌+◌, ◌≤◌, length};
ghost use Rattle.floats.specs.Written.{Kept};
ghost use Rattle.stored.specs.Put.{put_flag};

// A flag lies before a row's floats, and leaves them as they are.
#[tactic(auto, using(floats::proofs::Written::flag_stays))]
pub fn put_flag(b: &mut [u8], k: usize, t: bool)
    requires { k + 2 ≤ length b.old }
    ensures put { b.new ≡ put_flag b.old k t }
    ensures kept { k + 2 ≤ 30 → Kept b.old b.new }
{
    little_endian::put_u16(b, k, u16::from(t));
}
