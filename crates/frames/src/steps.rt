// The frames of a run.
ghost use Rattle.std.specs.Prelude.{◌≡◌, List, [], ◌∷◌, map, ◌+◌, ◌*◌, ◌≤◌, length, take};
ghost use Rattle.format.specs.Limits.{max_steps, max_task_nodes};
ghost use Rattle.reducing.specs.Run.{Step, ending_number};
ghost use Rattle.outcomes.specs.Outcome.{log_of};
ghost use Rattle.listing.specs.Listing.{printed, run_kind, step_frame};
ghost use Rattle.listing.specs.ForContracts.Appended.{Appended};
ghost use Rattle.frames.specs.ForContracts.Room.{step_room, run_room};

use listing::digits::{put_bytes, put_frame};
use listing::kinds::PrintedKind;
use reducing::ending::Ending;

// "each step '14', equation, direction, position": the first `steps` of the log.
pub fn put_steps(log: &[u8], steps: usize, out: &mut [u8], at: usize) -> usize
    requires { (steps ≤ max_steps) × (3 * steps ≤ length log.now) × (at + step_room * steps ≤ length out.old) }
    ensures appended { (taken : List Step) → steps ≡ length taken → take (3 * steps) log.now ≡ log_of taken → Appended out.old at (printed (map step_frame taken)) out.new result }
    ensures value { result ≡ at + step_room * steps }
{
    let mut to = at;
    for i in 0..steps {
        let entry = 3 * i;
        let frame = [
            PrintedKind::Step as u8,
            log[entry],
            log[entry + 1],
            log[entry + 2],
        ];
        to = put_frame(&frame, out, to);
    }
    to
}

// "then '13', ending, steps, term"
pub fn put_run(ending: Ending, steps: usize, term: &[u8], out: &mut [u8], at: usize) -> usize
    requires { (steps ≤ max_steps) × (length term.now ≤ max_task_nodes) × (at + run_room ≤ length out.old) }
    ensures { Appended out.old at (printed ((run_kind ∷ ending_number ending ∷ steps ∷ term.now) ∷ [])) out.new result }
{
    let head = [PrintedKind::Run as u8, u8::from(ending), steps as u8];
    let to = put_bytes(&head, out, at);
    put_frame(term, out, to)
}
