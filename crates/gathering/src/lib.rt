// A listing read line by line, and the front of its program stored.
#![tactic(auto)]

ghost use Rattle.std.specs.Prelude.{◌≡◌, ◌+◌, ◌<◌, ◌≤◌, ◌^◌, length};
ghost use Rattle.taking.specs.Taking.{TakesLine};
ghost use Rattle.gathering.specs.Gathering.{room_size, Gathers, Counts};

use taking::Taken;

// Room for the front of any program.
pub const ROOM: usize = 26100;

// A program has at most so many blocks, and so has a listing.
const MOST_BLOCKS: u8 = 200;

// The first place behind the count of blocks, which is known only at the end.
const BEHIND_COUNT: usize = 2;

// Where the bytes of a program's front stand in the room.
#[derive(Clone, Copy)]
pub struct Gathered {
    pub from: usize,
    pub to: usize,
}

// Puts the count of blocks so that it ends before the first block, and tells where it begins.
fn put_count(room: &mut [u8], n: u8) -> usize
    requires { n ≤ 200 }
    ensures { Counts n room.old room.new result }
{
    if n < 128 {
        storing::put_number(room, 1, n as u32);
        return 1;
    }
    storing::put_number(room, 0, n as u32);
    0
}

// The line of block i: behind the last block there is none.
fn take_block(line: &[u8], i: u8, room: &mut [u8], to: usize) -> Option<Taken>
    requires { to + 200 < 2 ^ 64 }
    ensures { TakesLine i line.now room.old to room.new result }
{
    if MOST_BLOCKS <= i {
        return None;
    }
    taking::take_line(line, i, room, to)
}

// Reads a text, and stores the front of the program that it stands for; or answers the offset of the first bad line.
pub fn gather(text: &[u8], room: &mut [u8]) -> Result<Gathered, usize>
    requires { length room.old ≡ room_size }
    ensures { Gathers text.now room.new result }
{
    let mut at: usize = 0;
    let mut i: u8 = 0;
    let mut to = BEHIND_COUNT;
    let mut kept = true;
    loop {
        let Some(line) = splitting::next_line(text, at) else {
            return Err(at);
        };
        match take_block(&text[at..line.last], i, room, to) {
            Some(taken) => {
                i += 1;
                at = line.next;
                if kept {
                    to = taken.next;
                    kept = taken.small;
                }
            }
            None => {
                let Some(behind) = alarm_line::take_alarms(&text[at..line.last], room, to) else {
                    return Err(at);
                };
                if line.next < text.len() {
                    return Err(line.next);
                }
                let from = put_count(room, i);
                if kept {
                    to = behind;
                }
                return Ok(Gathered { from, to });
            }
        }
    }
}
