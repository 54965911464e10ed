// What export and import answer.
#![tactic(auto)]

ghost use Rattle.std.specs.Prelude.{◌≡◌};
ghost use Rattle.exchange.specs.Exchange.{refused, done};

// Number of refusal and place (0 and 0 if there is none), and how many bytes were written at the front of the lent buffer (0 if refused).
#[derive(Drop)]
pub struct Exchange {
    pub refusal: u8,
    pub place: usize,
    pub length: usize,
}

// A program or a listing that is refused.
pub fn refuse(n: u8, at: usize) -> Exchange
    ensures { result ≡ refused n at }
{
    Exchange {
        refusal: n,
        place: at,
        length: 0,
    }
}

// One that was written.
pub fn finish(n: usize) -> Exchange
    ensures { result ≡ done n }
{
    Exchange {
        refusal: 0,
        place: 0,
        length: n,
    }
}
