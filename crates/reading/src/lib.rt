// Bytes that are read behind others in a buffer, and moved down in it.
#![tactic(auto)]

ghost use Rattle.std.specs.Prelude.{◌≡◌, ◌++◌, ◌-◌, ◌≤◌, ◌<◌, length, take, drop};
ghost use Rattle.reading.specs.Reading.{input_of, Inside};

use std::io;
use std::io::Read;

// What a reader's answer on a read into `space` says: how many bytes, or none at the end of the input.
pub fn told_by(got: io::Result<usize>, space: &[u8]) -> io::Result<Option<usize>>
    ensures { result ≡ input_of got (length space.now) }
{
    let n = got?;
    if n == 0 {
        return Ok(None);
    }
    Ok(Some(n.min(space.len())))
}

// Reads on behind what is kept. What is read is not in the logic.
pub fn read_behind<R: Read>(
    reader: &mut R,
    buf: &mut [u8],
    kept: usize,
) -> io::Result<Option<usize>>
    requires { kept < length buf.old }
    ensures { (take kept buf.new ≡ take kept buf.old) × Inside kept buf.new result }
{
    let got = reader.read(&mut buf[kept..]);
    told_by(got, &buf[kept..])
}

// Kept: a loop, since there is no heap for `read_to_end`, and `read_exact` does not tell how far it came.
// Reads until the buffer is full, the input ends or a read fails, and answers how many bytes it put at the front.
pub fn read_full<R: Read>(reader: &mut R, buf: &mut [u8]) -> usize
    ensures { result ≤ length buf.new }
{
    let mut done: usize = 0;
    while done < buf.len() {
        match reader.read(&mut buf[done..]) {
            Ok(0) | Err(_) => return done,
            Ok(n) => done += n,
        }
    }
    done
}

// Moves the bytes from..to down, and answers how many they are.
pub fn move_down(buf: &mut [u8], from: usize, to: usize) -> usize
    requires { (from ≤ to) × (to ≤ length buf.old) }
    ensures { (result ≡ to - from)
        × (buf.new ≡ take (to - from) (drop from buf.old) ++ drop (to - from) buf.old) }
{
    buf.copy_within(from..to, 0);
    to - from
}
