// scanlist's text for a recording that comes in windows: a window is fed, and its lines are put into a buffer.
#![tactic(auto)]

ghost use Rattle.std.specs.Prelude.{[], ◌≤◌, length};
ghost use Rattle.text.specs.Text.{Put};
ghost use Rattle.lines.specs.Lines.{line_bytes};
ghost use Rattle.recording.specs.Recording.{program_bytes};
ghost use Rattle.playback.specs.Playback.{opening, fed, finished};
ghost use Rattle.telling.specs.Lines.{lines_for};
ghost use Rattle.telling.specs.Answers.{Held, Roomy};
ghost use Rattle.feeding.specs.Listing.{Listed};
ghost use Rattle.feeding.specs.Answers.{stage_of, FedOn};

use image::State;
use playback::Halt;
use telling::{Fed, Player};

// Opens the recording in a window, and goes on to its scans.
fn open(window: &[u8], program: &mut [u8], out: &mut [u8]) -> Fed
    requires { (program_bytes ≤ length program.old) × Roomy window.now out.old }
    ensures { FedOn opening (fed opening window.now) window.now program.old program.new
        out.old out.new result }
{
    match playback::open_recording(window, program) {
        Ok((size, next)) => telling::play(window, next, &program[..size], State::fresh(), out),
        Err(Halt::Refused(n, place)) => {
            let to = lines::write_refused(out, 0, n, place);
            telling::ended(window.len(), to)
        }
        Err(Halt::Bad) => {
            let to = lines::write_bad_program(out, 0);
            telling::ended(window.len(), to)
        }
        Err(Halt::Waits) => Fed {
            player: Player::fresh(),
            used: 0,
            to: 0,
        },
    }
}

// Feeds the bytes at hand.
pub fn feed(window: &[u8], player: Player, program: &mut [u8], out: &mut [u8]) -> Fed
    requires { (program_bytes ≤ length program.old) × ((Held player program.old) × Roomy window.now out.old) }
    ensures { FedOn (stage_of player program.old) (fed (stage_of player program.old) window.now)
        window.now program.old program.new out.old out.new result }
{
    match player {
        Player::Opening => open(window, program, out),
        Player::Playing(size, state) => telling::play(window, 0, &program[..size], state, out),
        Player::Over => telling::ended(window.len(), 0),
    }
}

// What is printed at the end, where `rest` is left.
pub fn finish(rest: &[u8], player: Player, out: &mut [u8]) -> usize
    requires { line_bytes ≤ length out.old }
    ensures { Put (lines_for (finished (stage_of player []) rest.now)) out.old 0 out.new result }
{
    match player {
        Player::Opening => lines::write_bad_program(out, 0),
        Player::Playing(..) if rest.len() > 0 => lines::write_bad_scan(out, 0),
        Player::Playing(..) | Player::Over => 0,
    }
}

// That the texts of a recording's windows are its listing, as a theorem: it does nothing when called.
pub fn listed()
    ensures { Listed }
{}
