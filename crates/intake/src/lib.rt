// What a read gave: its bytes are fed behind those that are kept, the end is told, and a failure ends the run.
#![tactic(auto)]

ghost use Rattle.std.specs.Prelude.{◌≡◌, ◌≤◌, length};
ghost use Rattle.recording.specs.Recording.{program_bytes};
ghost use Rattle.telling.specs.Answers.{Held, Roomy};
ghost use Rattle.feeding.specs.Answers.{stage_of};
ghost use Rattle.reading.specs.Reading.{Inside};
ghost use Rattle.intake.specs.Intake.{ended_at, WentOn};

use keeping::Keep;
use std::io;
use telling::Player;

// A run that has ended, with a text up to `to`.
fn ended_at(to: usize) -> Keep
    ensures { result ≡ ended_at to }
{
    Keep {
        player: Player::Over,
        kept: 0,
        to,
    }
}

// Goes on with what was read behind the bytes that are kept.
pub fn go_on(
    got: io::Result<Option<usize>>,
    buf: &mut [u8],
    last: Keep,
    program: &mut [u8],
    text: &mut [u8],
) -> Keep
    requires { (last.kept ≤ length buf.old) × (Inside last.kept buf.old got
        × ((program_bytes ≤ length program.old) × ((Held last.player program.old) × Roomy buf.old text.old))) }
    ensures { WentOn got (stage_of last.player program.old) last.kept buf.old buf.new
        program.old program.new text.old text.new result }
{
    match got {
        Ok(Some(n)) => keeping::feed_window(buf, last.kept + n, last.player, program, text),
        Ok(None) => {
            let to = feeding::finish(&buf[..last.kept], last.player, text);
            ended_at(to)
        }
        Err(_) => ended_at(0),
    }
}
