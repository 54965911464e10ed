// A block's turn in a scan: its row read from its bytes, the rule of its kind, and what acceptance asks of it.
#![tactic(auto)]

ghost use Rattle.std.specs.Prelude.{◌≡◌, [], ◌∷◌, ℕ, ◌<◌, ◌≤◌, ℤ};
ghost use Rattle.numbers.specs.Blocks.{Word, word as wordField};
ghost use Rattle.numbers.specs.Types.{kind_count, word_ref};
ghost use Rattle.kinds.specs.Kinds.{types_of};
ghost use Rattle.block.specs.Asking.{asking};
ghost use Rattle.block.specs.Reading.{fields_at, block_at};
ghost use Rattle.expression.specs.Expression.{bit_in};
ghost use Rattle.rules.specs.Rules.{word_in};
ghost use Rattle.rules.specs.Rows.{contents};
ghost use Rattle.running.specs.Turns.{block_read, turn_of, turned_of_answer, asked_after};

use place::Place;
use rules::Readings;
use terms::Fault;

// Marks the block that a word reference asks for its word.
fn ask_word(r: u32, asked: &mut [u8; 200])
    ensures { asked.new ≡ asking (wordField (word_ref r) ∷ []) asked.old }
{
    if r < 8 {
        return;
    }
    if r < 208 {
        let k = (r - 8) as usize;
        asked[k] = 1;
    }
}

// Marks the blocks that a block of a kind with word references asks for their words, by the numbers of its fields.
fn ask_words(kind: u8, f: [u32; 5], asked: &mut [u8; 200])
    requires { (9 ≤ kind) × (kind < kind_count) }
    ensures { asked.new ≡ asking (contents (types_of kind) 0 f) asked.old }
{
    match kind {
        9 => {
            ask_word(f[2], asked);
            ask_word(f[3], asked);
        }
        10 => {
            ask_word(f[4], asked);
        }
        11 => {
            ask_word(f[2], asked);
            ask_word(f[3], asked);
            ask_word(f[4], asked);
        }
        _ => {
            ask_word(f[1], asked);
            ask_word(f[2], asked);
            ask_word(f[3], asked);
        }
    }
}

// The place of a block after its turn, its steps, what acceptance asks of it (its memory and what is known of it from here on),
// and where the block ends.
#[derive(Drop)]
pub struct Turned {
    pub place: Place,
    pub steps: u32,
    pub memory: u32,
    pub mark: u8,
    pub next: usize,
}

// The turn of a BL whose expression stands at a place.
fn turn_bl(
    s: &[u8],
    at: usize,
    p: Place,
    bits: &[bool; 234],
    marks: &[u8; 200],
) -> Result<Turned, Fault>
    ensures { (g : Word → ℤ) (e : ℕ) → turned_of_answer result
        ≡ turn_of (bit_in bits.now) g e p (block_read 0 (fields_at marks.now (types_of 0) 0 s.now at)) }
{
    let v = expression::eval(s, at, nodes::MOST_DEEP, nodes::MOST_NODES, bits, marks)?;
    Ok(Turned {
        place: switches::bl(v.on, p),
        steps: v.steps,
        memory: kinds::memory_of(0) + ((nodes::MOST_NODES - v.left) as u32),
        mark: kinds::mark_of(0),
        next: v.next,
    })
}

// The turn of a block of another kind, whose fields stand at a place.
fn turn_row(
    s: &[u8],
    at: usize,
    kind: u8,
    p: Place,
    bits: &[bool; 234],
    words: &[i16; 208],
    e: u16,
    marks: &[u8; 200],
    asked: &mut [u8; 200],
) -> Result<Turned, Fault>
    requires { (kind < kind_count) × (0 < kind) }
    ensures value { turned_of_answer result
        ≡ turn_of (bit_in bits.now) (word_in words.now) e p (block_read kind (fields_at marks.now (types_of kind) 0 s.now at)) }
    ensures asks { asked.new
        ≡ asked_after asked.old (block_read kind (fields_at marks.now (types_of kind) 0 s.now at)) }
{
    let row = block::read_row(s, at, kind, marks)?;
    if 9 <= kind {
        ask_words(kind, row.fields, asked);
    }
    let now = Readings {
        bits,
        words,
        elapsed: e,
    };
    Ok(Turned {
        place: rules::apply(kind, row.fields, p, now),
        steps: 1,
        memory: kinds::memory_of(kind),
        mark: kinds::mark_of(kind),
        next: row.next,
    })
}

// The turn of the block at a place, where `bits` and `words` have what each reference reads as; in `asked` it marks the blocks
// that the block asks for their words.
pub fn turn(
    s: &[u8],
    at: usize,
    p: Place,
    bits: &[bool; 234],
    words: &[i16; 208],
    e: u16,
    marks: &[u8; 200],
    asked: &mut [u8; 200],
) -> Result<Turned, Fault>
    ensures value { turned_of_answer result ≡ turn_of (bit_in bits.now) (word_in words.now) e p (block_at marks.now s.now at) }
    ensures asks { asked.new ≡ asked_after asked.old (block_at marks.now s.now at) }
{
    let (v, start) = numbers::read_number(s, at, numbers::KIND_NUMBER, 0, marks)?;
    if v == 0 {
        return turn_bl(s, start, p, bits, marks);
    }
    let kind = v as u8;
    turn_row(s, start, kind, p, bits, words, e, marks, asked)
}
