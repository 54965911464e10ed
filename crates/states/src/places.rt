// Places out of the columns of an image, and back.
ghost use Rattle.std.specs.Prelude.{◌≡◌};
ghost use Rattle.image.specs.Image.{columns, places_in, columns_of};
ghost use Rattle.image.specs.Lent.{columns_after};

use place::Place;
use std::array;

pub fn places_in(
    ticks: &[u32; 200],
    words: &[i16; 200],
    pins: &[u8; 200],
    outputs: &[u8; 200],
) -> [Place; 200]
    ensures { result ≡ places_in (columns ticks.now words.now pins.now outputs.now) }
{
    array::from_fn(|i| Place {
        pins: pins[i],
        out: outputs[i] == 1,
        ticks: ticks[i],
        word: words[i],
    })
}

pub fn put_places(
    ps: [Place; 200],
    ticks: &mut [u32; 200],
    words: &mut [i16; 200],
    pins: &mut [u8; 200],
    outputs: &mut [u8; 200],
)
    ensures { columns_after ticks words pins outputs ≡ columns_of ps }
{
    for i in 0..200 {
        ticks[i] = ps[i].ticks;
        words[i] = ps[i].word;
        pins[i] = ps[i].pins;
        outputs[i] = u8::from(ps[i].out);
    }
}
