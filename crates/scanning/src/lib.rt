// One scan of the places: the program is tried on a copy of its own places, which is stored back if the program is accepted.
#![tactic(auto)]

ghost use Rattle.std.specs.Prelude.{◌≡◌, ◌≤◌};
ghost use Rattle.image.specs.Image.{places_in};
ghost use Rattle.image.specs.Lent.{columns_before, columns_after};
ghost use Rattle.scanning.specs.Scan.{inputs};
ghost use Rattle.scanning.specs.Loading.{tried_on, after_trial};
ghost use Rattle.scanning.specs.Run.{run_of, after_run};

use trial::Trial;

// Tries a program whose n blocks stand from `start` on, on a copy of its places, and stores them if it is accepted; none if it is not.
fn run_counted(
    program: &[u8],
    start: usize,
    n: u32,
    elapsed: u16,
    bits: u32,
    analogs: [i16; 8],
    ticks: &mut [u32; 200],
    words: &mut [i16; 200],
    pins: &mut [u8; 200],
    outputs: &mut [u8; 200],
) -> Option<Trial>
    requires { n ≤ 200 }
    ensures value { result ≡ tried_on n program.now start (inputs elapsed bits analogs) (columns_before ticks words pins outputs) }
    ensures after { columns_after ticks words pins outputs
        ≡ after_trial n program.now start (inputs elapsed bits analogs) (columns_before ticks words pins outputs) }
{
    let mut v = [false; 234];
    let mut w = [0i16; 208];
    let mut t = [0u32; 200];
    let mut q = [0u8; 200];
    loading::load_bits(n, bits, outputs, &mut v);
    loading::load_words(n, analogs, words, &mut w);
    copies::copy_first(n, ticks, &mut t);
    copies::copy_first(n, pins, &mut q);
    let r = trial::try_program(program, start, n, elapsed, &mut v, &mut w, &mut t, &mut q)?;
    copies::copy_first(n, &t, ticks);
    copies::store_words(n, &w, words);
    copies::copy_first(n, &q, pins);
    copies::store_outputs(n, &v, outputs);
    Some(r)
}

// Runs a program once on the columns of the places; none if it is not accepted, and then they stay as they are.
pub fn run(
    program: &[u8],
    elapsed: u16,
    bits: u32,
    analogs: [i16; 8],
    ticks: &mut [u32; 200],
    words: &mut [i16; 200],
    pins: &mut [u8; 200],
    outputs: &mut [u8; 200],
) -> Option<Trial>
    ensures value { result ≡ run_of program.now (inputs elapsed bits analogs) (places_in (columns_before ticks words pins outputs)) }
    ensures after { columns_after ticks words pins outputs
        ≡ after_run program.now (inputs elapsed bits analogs) (columns_before ticks words pins outputs) }
{
    image::columns_sized(ticks, words, pins, outputs);
    let every = [2u8; 200];
    let Ok((n, next)) = numbers::read_number(program, 0, numbers::BLOCK_COUNT, 0, &every) else {
        return trial::refused();
    };
    run_counted(
        program, next, n, elapsed, bits, analogs, ticks, words, pins, outputs,
    )
}
