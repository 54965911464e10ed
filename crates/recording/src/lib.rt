// The form of a recording: its head, which is the length of its program, and its scans.
#![tactic(auto)]

ghost use Rattle.std.specs.Prelude.{◌≡◌, map, ◌+◌, ◌*◌, drop};
ghost use Rattle.terms.specs.Words.{signed};
ghost use Rattle.wire.specs.Number.{number_at};
ghost use Rattle.recording.specs.Recording.{length_in, short_of, shorts_at, scan_at};
ghost use Rattle.recording.specs.Answers.{lack_of, answered, recorded_in};

use wire::Unread;

// The longest program.
pub const PROGRAM: usize = 16384;

// Why a part of a recording is not there: something else stands in its place, or the end of the bytes cuts it.
#[derive(Clone, Copy, Debug, PartialEq, Eq)]
pub enum Lack {
    Bad,
    Cut,
}

impl From<Unread> for Lack {
    ghost from_gives = { λ e k. k ≡ lack_of e };

    fn from(e: Unread) -> Lack {
        match e {
            Unread::BadlyFormed => Lack::Bad,
            Unread::Cut => Lack::Cut,
        }
    }
}

// The head of a recording: the length of its program, and the place where that starts.
#[tactic(auto, using(crate::proofs::Ends::number_within), unfolding(crate::specs::Recording::length_in))]
pub fn read_head(s: &[u8]) -> Result<(usize, usize), Lack>
    ensures { result ≡ answered (length_in s.now) }
{
    let (v, at) = wire::number(s, 0)?;
    let size = v as usize;
    if PROGRAM < size {
        return Err(Lack::Bad);
    }
    if s.len() < at + size {
        return Err(Lack::Cut);
    }
    Ok((size, at))
}

// The number of 16 bits at a place, and the place after it.
fn read_short(s: &[u8], at: usize) -> Result<(u16, usize), Lack>
    ensures { result ≡ answered (short_of (number_at s.now at)) }
{
    let (v, next) = wire::number(s, at)?;
    let short = u16::try_from(v).map_err(|_| Lack::Bad)?;
    Ok((short, next))
}

// The eleven numbers of 16 bits from `start` on, and the place after them.
fn read_shorts(s: &[u8], start: usize) -> Result<([u16; 11], usize), Lack>
    ensures { result ≡ answered (shorts_at 11 s.now start) }
{
    let mut values = [0u16; 11];
    let mut at = start;
    for value in values.iter_mut() {
        let (v, next) = read_short(s, at)?;
        *value = v;
        at = next;
    }
    Ok((values, at))
}

// The eight words among the numbers of a scan.
fn words_of(values: [u16; 11]) -> [i16; 8]
    ensures { result ≡ map signed (drop 3 values) }
{
    let mut words = [0i16; 8];
    for (i, word) in words.iter_mut().enumerate() {
        *word = terms::signed(values[i + 3]);
    }
    words
}

// A scan of a recording, and the place after it.
#[derive(Clone, Copy, Debug, PartialEq, Eq)]
pub struct Recorded {
    pub elapsed: u16,
    pub bits: u32,
    pub words: [i16; 8],
    pub next: usize,
}

// The scan at a place of a recording.
pub fn read_scan(s: &[u8], at: usize) -> Result<Recorded, Lack>
    ensures { result ≡ recorded_in (scan_at s.now at) }
{
    let (values, next) = read_shorts(s, at)?;
    Ok(Recorded {
        elapsed: values[0],
        bits: u32::from(values[1]) + u32::from(values[2]) * 65536,
        words: words_of(values),
        next,
    })
}
