// A window in a buffer: it is fed, and what is left of it is moved down, so that the next can be read behind it.
#![tactic(auto)]

ghost use Rattle.std.specs.Prelude.{◌≤◌, length, take};
ghost use Rattle.recording.specs.Recording.{program_bytes};
ghost use Rattle.playback.specs.Playback.{fed};
ghost use Rattle.telling.specs.Answers.{Held, Roomy};
ghost use Rattle.feeding.specs.Answers.{stage_of};
ghost use Rattle.keeping.specs.Keeping.{Kept};

use telling::Player;

// A recording, how many bytes of its last window are kept, and the place after its text.
#[derive(Clone, Copy, Debug, PartialEq, Eq)]
pub struct Keep {
    pub player: Player,
    pub kept: usize,
    pub to: usize,
}

// Feeds the bytes up to `end`, and moves what is left of them down.
pub fn feed_window(
    buf: &mut [u8],
    end: usize,
    player: Player,
    program: &mut [u8],
    text: &mut [u8],
) -> Keep
    requires { (end ≤ length buf.old) × ((program_bytes ≤ length program.old) × ((Held player program.old) × Roomy buf.old text.old)) }
    ensures { Kept (stage_of player program.old) (fed (stage_of player program.old) (take end buf.old))
        (take end buf.old) buf.old buf.new program.old program.new
        text.old text.new result }
{
    let f = feeding::feed(&buf[..end], player, program, text);
    let kept = reading::move_down(buf, f.used, end);
    Keep {
        player: f.player,
        kept,
        to: f.to,
    }
}
