// The line of a block in a listing, put as text from the bytes of a program that can be read.
#![tactic(auto)]

ghost use Rattle.std.specs.Prelude.{◌∷◌, ◌++◌, ◌+◌, ◌<◌, ◌^◌};
ghost use Rattle.wire.specs.Reading.{IsGot};
ghost use Rattle.filling.specs.Filling.{Put};
ghost use Rattle.numbers.specs.Blocks.{output};
ghost use Rattle.numbers.specs.Types.{kind_count};
ghost use Rattle.grammar.specs.Grammar.{space};
ghost use Rattle.shown.specs.Show.{name_of};
ghost use Rattle.words.specs.Words.{letters_of, word_text};
ghost use Rattle.block.specs.Reading.{block_at};
ghost use Rattle.listing.specs.Lines.{row_at, IsRow, row_text, most_of_line, Lined};

// Puts the beginning of a line: the block's number and its kind's letters.
fn put_head(out: &mut [u8], to: usize, i: u8, kind: u8) -> usize
    requires { (kind < kind_count) × (to + 13 < 2 ^ 64) }
    ensures { Put (name_of (output i) ++ (space ∷ word_text (letters_of kind))) out.old to out.new result }
{
    let numbered = names::put_numbered(out, to, b'B', 3, u32::from(i));
    filling::put_byte(out, numbered, b' ');
    words::put_word(out, numbered + 1, words::LETTERS + kind)
}

// Puts the fields of a block of any kind: of a BL its expression, of another kind its fields by their numbers.
fn put_contents(
    s: &[u8],
    at: usize,
    kind: u8,
    fields: [u32; 5],
    marks: &[u8; 200],
    out: &mut [u8],
    to: usize,
) -> usize
    requires { IsRow marks.now kind s.now at fields × (to + 379 < 2 ^ 64) }
    ensures { Put (row_text kind (row_at marks.now kind s.now at)) out.old to out.new result }
{
    if kind == 0 {
        filling::put_byte(out, to, b' ');
        return infix::write_expression(s, at, marks, out, to + 1);
    }
    fields::put_fields(out, to, kind, fields)
}

// The place after a block, and the place after its line.
#[derive(Drop)]
pub struct Line {
    pub next: usize,
    pub to: usize,
}

// Puts the line of the block at a place of a program, which is block i.
pub fn put_line(s: &[u8], at: usize, i: u8, marks: &[u8; 200], out: &mut [u8], to: usize) -> Line
    requires { IsGot (block_at marks.now s.now at) × (to + most_of_line < 2 ^ 64) }
    ensures { Lined i (block_at marks.now s.now at) out.old to out.new result }
{
    let k = known::read_known(s, at, numbers::KIND_NUMBER, marks);
    let kind = k.number as u8;
    let start = k.next;
    let row = known::read_known_row(s, start, kind, marks);
    let fields = row.fields;
    let from = put_head(out, to, i, kind);
    let end = put_contents(s, start, kind, fields, marks, out, from);
    filling::put_byte(out, end, b'\n');
    Line {
        next: row.next,
        to: end + 1,
    }
}
