// The crate `run` under names that a program in another language can call: of each function the same contract, and nothing that the caller
// owes.
#![tactic(auto)]

ghost use Rattle.std.specs.Prelude.{◌≡◌};
ghost use Rattle.frame.specs.Check.{check_of};
ghost use Rattle.stored.specs.Run.{answers, leaves};

use records::Answer;

// Whether a frame would be run: the number and the place of the first test that it fails, or 0 at 0. Never writes.
#[unsafe(no_mangle)]
pub extern "C" fn check(s: &[u8]) -> Answer
    ensures { result ≡ check_of s.now }
{
    Answer::from(run::check(s))
}

// The number and the place are check's. A refused frame is left as it was, to the last byte; an accepted one is left as the rules say.
#[unsafe(no_mangle)]
pub extern "C" fn run(s: &mut [u8]) -> Answer
    ensures { (result ≡ answers s.old) × (s.new ≡ leaves s.old) }
{
    Answer::from(run::run(s))
}
