// A recording printed: read, feed, write. What is read and written is the system's.
#![tactic(auto)]

ghost use Rattle.std.specs.Prelude.{◌≡◌, ◌+◌, ◌≤◌, ◌<◌, length, take};
ghost use Rattle.recording.specs.Recording.{program_bytes};
ghost use Rattle.playback.specs.Playback.{opening};
ghost use Rattle.telling.specs.Answers.{player_of, Roomy};
ghost use Rattle.reading.specs.Reading.{Inside};

use keeping::Keep;
use recording::PROGRAM;
use std::io;
use std::io::Read;
use telling::Player;

// The size of a window: longer than anything that is left of one.
const WINDOW: usize = 32768;

// Room for the lines of a window.
const TEXT: usize = 262144;

// The most windows of a run: a machine that reads a thousand million of them in a second takes five hundred years.
const WINDOWS: u64 = 18446744073709551615;

// A recording of which nothing is read.
fn started() -> Keep
    ensures { result ≡ record { player = player_of opening; kept = 0; to = 0 } }
{
    Keep {
        player: Player::fresh(),
        kept: 0,
        to: 0,
    }
}

// Reads on behind what is kept, and says so if it could not.
fn read_on<R: Read>(
    rt: &impl Eprint,
    reader: &mut R,
    buf: &mut [u8],
    kept: usize,
) -> io::Result<Option<usize>>
    requires { kept < length buf.old }
    ensures { (take kept buf.new ≡ take kept buf.old) × Inside kept buf.new result }
{
    let got = reading::read_behind(reader, buf, kept);
    if got.is_err() {
        let _ = rt.eprintln("cannot read");
    }
    got
}

// Prints a recording by way of three buffers, window by window, as long as it can be written.
fn print_recording<R: Read>(
    rt: &(impl Print + Eprint),
    reader: &mut R,
    buf: &mut [u8],
    program: &mut [u8],
    text: &mut [u8],
) -> io::Result<()>
    requires { (3 + program_bytes ≤ length buf.old) × ((program_bytes ≤ length program.old) × Roomy buf.old text.old) }
{
    let mut k = started();
    for _ in 0..WINDOWS {
        let got = read_on(rt, reader, buf, k.kept);
        k = intake::go_on(got, buf, k, program, text);
        rt.write_all(&text[..k.to])?;
        if matches!(k.player, Player::Over) {
            break;
        }
    }
    Ok(())
}

// Prints the recording that a reader gives. What is read and written is not in the logic, so nothing is promised here.
pub fn run<R: Read>(rt: &(impl Print + Eprint), reader: &mut R) {
    let mut buf = [0u8; WINDOW];
    let mut program = [0u8; PROGRAM];
    let mut text = [0u8; TEXT];
    if let Err(error) = print_recording(rt, reader, &mut buf, &mut program, &mut text) {
        let _ = eprintln!(rt; "cannot write: {error}");
    }
}
