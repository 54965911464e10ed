// The alarms' line of a listing: its names are counted, and put into a lent buffer as the numbers of a program.
#![tactic(auto)]

ghost use Rattle.std.specs.Prelude.{◌≡◌, ◌+◌, ◌*◌, ◌<◌, ◌^◌};
ghost use Rattle.filling.specs.Filling.{Put};
ghost use Rattle.writing.specs.Expressions.{bytes_of};
ghost use Rattle.alarm_line.specs.Naming.{alarm_at, counted_in, as_count, first_names};
ghost use Rattle.alarm_line.specs.Taking.{TakesAlarms};

// One more than a number of a program can count.
const TOO_MANY: u32 = 2097152;

// No program is accepted with more alarms: of more only their count is put.
const MOST_ALARMS: u32 = 32;

// An alarm: the bit reference and the place behind its name. Or the end of the line, or neither.
// Kept: no plainer, three answers, of which an Option in an Option names none.
#[derive(Drop)]
enum Alarm {
    Bit(u32, usize),
    End,
    NoAlarm,
}

// The alarm at a place, behind a space or more.
fn read_alarm(line: &[u8], at: usize) -> Alarm
    ensures { result ≡ alarm_at line.now at }
{
    let p = spelling::skip_spaces(line, at);
    if line.len() <= p {
        return Alarm::End;
    }
    if p <= at {
        return Alarm::NoAlarm;
    }
    match spelling::read_name(line, p) {
        Ok((r, next)) => Alarm::Bit(r, next),
        Err(_) => Alarm::NoAlarm,
    }
}

// How many names a line of alarms has, and the place behind the word before them. Or it is no such line, or has too many.
fn count_names(line: &[u8]) -> Option<(u32, usize)>
    ensures { result ≡ as_count (counted_in line.now) }
{
    let word = spelling::skip_spaces(line, 0);
    if !words::word_at(line, word, words::ALARMS) {
        return None;
    }
    let at = word + words::word_size(words::ALARMS);
    let mut p = at;
    for n in 0..TOO_MANY {
        match read_alarm(line, p) {
            Alarm::Bit(_, next) => p = next,
            Alarm::End => return Some((n, at)),
            Alarm::NoAlarm => return None,
        }
    }
    None
}

// Puts the references of the first so many names from a place on, and answers the place after them.
fn put_names(line: &[u8], at: usize, count: u32, out: &mut [u8], to: usize) -> usize
    requires { to + 3 * count < 2 ^ 64 }
    ensures { Put (bytes_of (first_names count line.now at)) out.old to out.new result }
{
    let mut p = at;
    let mut q = to;
    for _i in 0..count {
        let Alarm::Bit(r, next) = read_alarm(line, p) else {
            return q;
        };
        q = storing::put_number(out, q, r);
        p = next;
    }
    q
}

// Puts the alarms of a line, their count and, if a program may have so many, their references, and answers the place after them.
// A bad line leaves the buffer as it was.
pub fn take_alarms(line: &[u8], out: &mut [u8], to: usize) -> Option<usize>
    requires { to + 200 < 2 ^ 64 }
    ensures { TakesAlarms line.now out.old to out.new result }
{
    let (n, at) = count_names(line)?;
    let p = storing::put_number(out, to, n);
    if MOST_ALARMS < n {
        return Some(p);
    }
    Some(put_names(line, at, n, out, p))
}
