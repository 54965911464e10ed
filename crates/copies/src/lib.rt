// The first n places, copied between the columns of an image and the arrays of a scan.
#![tactic(auto)]

ghost use Rattle.std.specs.Prelude.{map, ◌≡◌, ◌≤◌, drop};
ghost use Rattle.terms.specs.Bits.{digit};
ghost use Rattle.copies.specs.Copies.{over};

// Ticks or last pins, either way.
pub fn copy_first<T: Copy>(n: u32, from: &[T; 200], to: &mut [T; 200])
    requires { n ≤ 200 }
    ensures { to.new ≡ over n from.now to.old }
{
    let count = n as usize;
    to[..count].copy_from_slice(&from[..count]);
}

// The words, behind the analog words.
pub fn store_words(n: u32, words: &[i16; 208], to: &mut [i16; 200])
    requires { n ≤ 200 }
    ensures { to.new ≡ over n (drop 8 words.now) to.old }
{
    let count = n as usize;
    to[..count].copy_from_slice(&words[8..count + 8]);
}

// The outputs, behind off, on and the input bits.
pub fn store_outputs(n: u32, bits: &[bool; 234], to: &mut [u8; 200])
    requires { n ≤ 200 }
    ensures { to.new ≡ over n (map digit (drop 34 bits.now)) to.old }
{
    for i in 0..n as usize {
        to[i] = u8::from(bits[i + 34]);
    }
}
