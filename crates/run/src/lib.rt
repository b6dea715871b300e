// THE RUN of a whole frame, in place. A frame is run or refused, whatever its length and content.
#![tactic(auto)]

ghost use Rattle.std.specs.Prelude.{◌≡◌};
ghost use Rattle.records.specs.Answers.{answer_of};
ghost use Rattle.frame.specs.Check.{check_of};
ghost use Rattle.stored.specs.Run.{answers, leaves};
ghost use Rattle.run.specs.Start.{main_phases};

use records::{Head, Refused};
use sweep::Phases;

// The phases that the head's mode asks for, with their numbers. The mode's two bits are the frame's own number, tested as the rule does.
#[tactic(auto, unfolding(crate::specs::Start::main_phases))]
fn main_phases(head: Head) -> Phases
    ensures { result ≡ main_phases head.entry.bytes.now }
{
    let mode = head.mode();
    Phases {
        update: ((mode == 1) | (mode == 3)).then_some(head.least()),
        warm: ((mode == 2) | (mode == 3)).then_some(head.warm()),
    }
}

// Whether a frame would be run, or the first test that it fails. Never writes.
pub fn check(s: &[u8]) -> Result<(), Refused>
    ensures { answer_of result ≡ check_of s.now }
{
    frame::check(s)
}

// The refusal is check's. A refused frame is left as it was, to the last byte; an accepted one is left as the rules say.
pub fn run(s: &mut [u8]) -> Result<(), Refused>
    ensures { (answer_of result ≡ answers s.old) × (s.new ≡ leaves s.old) }
{
    frame::check(s)?;
    let head = Head { bytes: s };
    let (n, r, k) = (head.points(), head.rows(), head.resweeps());
    let p = main_phases(head);
    sweep::sweep_all(p, k, n, r, s);
    Ok(())
}
