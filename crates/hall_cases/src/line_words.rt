// The words of a line, with single spaces between them: numbers, signed words and bytes. A word that is missing is empty.
ghost use Rattle.std.specs.Prelude.{◌<◌};

use std::alloc::{AllocError, Global};

// The longest program.
const MOST_PROGRAM: usize = 32768;

// Word k.
fn word(line: &[u8], k: usize) -> &[u8] {
    line.split(|b| *b == b' ').nth(k).unwrap_or(&[])
}

// A decimal number, held to the largest there is.
fn decimal(digits: &[u8]) -> u64 {
    digits.iter().fold(0u64, |n, b| {
        n.saturating_mul(10)
            .saturating_add(u64::from(b.saturating_sub(b'0')))
    })
}

// Word k, a number.
pub fn number(line: &[u8], k: usize) -> u64 {
    decimal(word(line, k))
}

// The same, held to the largest of 8, 16 or 32 bits.
pub fn byte(line: &[u8], k: usize) -> u8 {
    u8::try_from(number(line, k)).unwrap_or(u8::MAX)
}

pub fn short(line: &[u8], k: usize) -> u16 {
    u16::try_from(number(line, k)).unwrap_or(u16::MAX)
}

pub fn long(line: &[u8], k: usize) -> u32 {
    u32::try_from(number(line, k)).unwrap_or(u32::MAX)
}

// Word k, a number of 16 bits that may have a sign, held to the largest and the lowest.
pub fn signed(line: &[u8], k: usize) -> i16 {
    match word(line, k) {
        [b'-', digits @ ..] => {
            i16::try_from(decimal(digits)).map_or(i16::MIN, |w| w.wrapping_neg())
        }
        digits => i16::try_from(decimal(digits)).unwrap_or(i16::MAX),
    }
}

// Word 1 of a line as an index below n; 0 if it is none.
pub fn index(line: &[u8], n: usize) -> usize
    requires { 0 < n }
    ensures { result < n }
{
    let k = number(line, 1) as usize;
    if k < n { k } else { 0 }
}

// The eight words of a scan.
pub fn analog(line: &[u8]) -> [i16; 8] {
    let mut words = [0i16; 8];
    for (i, w) in words.iter_mut().enumerate() {
        *w = signed(line, i + 3);
    }
    words
}

// The value of a hex digit of the cases, which are upper case.
fn digit(b: u8) -> u8
    ensures { result < 16 }
{
    match b {
        b'0'..=b'9' => b - b'0',
        b'A'..=b'F' => b - b'A' + 10,
        _ => 0,
    }
}

// The bytes that the digits behind the first space stand for, as many as a program may have.
pub fn program(alloc: Global, line: &[u8]) -> Result<Vec<u8>, AllocError> {
    let digits = line.splitn(2, |b| *b == b' ').nth(1).unwrap_or(&[]);
    let mut bytes = Vec::new(alloc);
    for pair in digits.chunks_exact(2).take(MOST_PROGRAM) {
        if let [high, low] = pair {
            bytes.push(digit(*high) * 16 + digit(*low))?;
        }
    }
    Ok(bytes)
}
