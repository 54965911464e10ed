// Inputs and the first n places, loaded into the arrays of a scan: what references read as, in the order of their numbers.
#![tactic(auto)]

ghost use Rattle.std.specs.Prelude.{◌++◌, map, ◌≡◌, ◌≤◌, drop};
ghost use Rattle.image.specs.Image.{is_on};
ghost use Rattle.copies.specs.Copies.{over};
ghost use Rattle.loading.specs.Inputs.{input_bits};

// Off, on and the input bits.
fn put_inputs(bits: u32, to: &mut [bool; 234])
    ensures { to.new ≡ input_bits bits ++ drop 34 to.old }
{
    to[0] = false;
    to[1] = true;
    for i in 0..32 {
        to[i + 2] = (bits >> i) % 2 == 1;
    }
}

// What bit references read as, in the order of their numbers.
pub fn load_bits(n: u32, bits: u32, outputs: &[u8; 200], to: &mut [bool; 234])
    requires { n ≤ 200 }
    ensures { to.new ≡ input_bits bits ++ over n (map is_on outputs.now) (drop 34 to.old) }
{
    put_inputs(bits, to);
    for i in 0..n as usize {
        to[i + 34] = outputs[i] == 1;
    }
}

// What word references below 208 read as, in the order of their numbers.
pub fn load_words(n: u32, analogs: [i16; 8], words: &[i16; 200], to: &mut [i16; 208])
    requires { n ≤ 200 }
    ensures { to.new ≡ analogs ++ over n words.now (drop 8 to.old) }
{
    let count = n as usize;
    to[..8].copy_from_slice(&analogs);
    to[8..count + 8].copy_from_slice(&words[..count]);
}
