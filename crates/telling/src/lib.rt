// The scans of a window, told line by line.
#![tactic(auto)]

ghost use Rattle.std.specs.Prelude.{◌≡◌, ◌+◌, ◌≤◌, length, drop};
ghost use Rattle.text.specs.Text.{Put};
ghost use Rattle.lines.specs.Lines.{line_bytes};
ghost use Rattle.playback.specs.Playback.{opening, over, played};
ghost use Rattle.telling.specs.Lines.{line_of};
ghost use Rattle.telling.specs.Answers.{player_of, Roomy, Told};

use calls::Scanned;
use image::State;
use playback::Halt;

// How far a recording has come: its program is not all there; its scans are run, by a program of a size and in a state; or the run
// has ended.
#[derive(Clone, Copy, Debug, PartialEq, Eq)]
pub enum Player {
    Opening,
    Playing(usize, State),
    Over,
}

impl Player {
    // A recording of which nothing has come.
    pub fn fresh() -> Player
        ensures { result ≡ player_of opening }
    {
        Player::Opening
    }
}

// The recording after a window, how many bytes of the window are used up, and the place after its text.
#[derive(Clone, Copy, Debug, PartialEq, Eq)]
pub struct Fed {
    pub player: Player,
    pub used: usize,
    pub to: usize,
}

// A run that has ended.
pub fn ended(used: usize, to: usize) -> Fed
    ensures { result ≡ record { player = player_of over; used = used; to = to } }
{
    Fed {
        player: Player::Over,
        used,
        to,
    }
}

// Puts the line of a scan that was run.
fn put_scan(a: Scanned, out: &mut [u8], to: usize) -> usize
    requires { to + line_bytes ≤ length out.old }
    ensures { Put (line_of a) out.old to out.new result }
{
    let j = a.state.journal;
    lines::write_line(out, to, a.state.time, a.steps, j.held, j.missed)
}

// The scans of a window from `start` on.
pub fn play(window: &[u8], start: usize, program: &[u8], fresh: State, out: &mut [u8]) -> Fed
    requires { (start ≤ length window.now) × Roomy window.now out.old }
    ensures { Told (played program.now fresh (drop start window.now)) window.now
        out.old out.new result }
{
    let mut at = start;
    let mut state = fresh;
    let mut to: usize = 0;
    loop {
        match playback::next_scan(window, at, program, state) {
            Ok((a, next)) => {
                to = put_scan(a, out, to);
                state = a.state;
                at = next;
            }
            Err(Halt::Refused(n, place)) => {
                let end = lines::write_refused(out, to, n, place);
                return ended(window.len(), end);
            }
            Err(Halt::Bad) => {
                let end = lines::write_bad_scan(out, to);
                return ended(window.len(), end);
            }
            Err(Halt::Waits) => {
                return Fed {
                    player: Player::Playing(program.len(), state),
                    used: at,
                    to,
                };
            }
        }
    }
}
