// One block read from its bytes: the fields of every kind.
#![tactic(auto)]

ghost use Rattle.std.specs.Prelude.{◌≡◌, ◌<◌};
ghost use Rattle.numbers.specs.Types.{number_types, kind_count};
ghost use Rattle.kinds.specs.Kinds.{types_of};
ghost use Rattle.block.specs.Reading.{fields_at, block_at};
ghost use Rattle.block.specs.Answers.{empty_row, field_more, row_of, row_of_answer, brief_of, brief_of_answer};

use numbers::{DIVISOR, EITHER_WAY, OFF_TIME, PIN, PLUS_MINUS, RELATION, TIME, UNIT, WORD_PIN};
use terms::Fault;

// The fields of a block as numbers (0 where there is none, or an expression), its nodes, and the place after it.
#[derive(Clone, Copy)]
pub struct Row {
    pub fields: [u32; 5],
    pub nodes: u32,
    pub next: usize,
}

// A row of which nothing is read yet.
fn empty(start: usize) -> Row
    ensures { result ≡ empty_row start }
{
    Row {
        fields: [0u32; 5],
        nodes: 0,
        next: start,
    }
}

impl Row {
    // Reads one more field into place i: a number of type ty, after the number at the place before.
    #[inline(always)]
    fn read_field(mut self, i: usize, ty: u8, s: &[u8], marks: &[u8; 200]) -> Result<Row, Fault>
        requires { (i < 5) × (ty < number_types) }
        ensures { row_of_answer result ≡ field_more marks.now i ty s.now self }
    {
        let before = if i == 0 { 0 } else { self.fields[i - 1] };
        let (v, next) = numbers::read_number(s, self.next, ty, before, marks)?;
        self.fields[i] = v;
        self.next = next;
        Ok(self)
    }
}

// The row of a BL: its expression, passed over.
fn read_expression(s: &[u8], at: usize, marks: &[u8; 200]) -> Result<Row, Fault>
    ensures { row_of_answer result ≡ row_of (fields_at marks.now (types_of 0) 0 s.now at) }
{
    let (left, next) = nodes::pass(s, at, nodes::MOST_DEEP, nodes::MOST_NODES, marks)?;
    Ok(Row {
        fields: [0u32; 5],
        nodes: (nodes::MOST_NODES - left) as u32,
        next,
    })
}

// The fields of a block of this kind, from `start` on: BL, SR, PL, AL, DL, OS, FL, CN, UD, CP, OG, ZC, ST, each field by its type.
// The types stand in the calls themselves, and what is called is put into its place, so that each call becomes code for its type.
pub fn read_row(s: &[u8], start: usize, kind: u8, marks: &[u8; 200]) -> Result<Row, Fault>
    requires { kind < kind_count }
    ensures { row_of_answer result ≡ row_of (fields_at marks.now (types_of kind) 0 s.now start) }
{
    match kind {
        0 => read_expression(s, start, marks),
        1 => empty(start)
            .read_field(0, PIN, s, marks)?
            .read_field(1, PIN, s, marks)?
            .read_field(2, EITHER_WAY, s, marks),
        2 => empty(start)
            .read_field(0, PIN, s, marks)?
            .read_field(1, EITHER_WAY, s, marks),
        3 => empty(start)
            .read_field(0, PIN, s, marks)?
            .read_field(1, PIN, s, marks),
        4 => empty(start)
            .read_field(0, PIN, s, marks)?
            .read_field(1, PIN, s, marks)?
            .read_field(2, UNIT, s, marks)?
            .read_field(3, TIME, s, marks)?
            .read_field(4, TIME, s, marks),
        5 => empty(start)
            .read_field(0, PIN, s, marks)?
            .read_field(1, PIN, s, marks)?
            .read_field(2, UNIT, s, marks)?
            .read_field(3, TIME, s, marks),
        6 => empty(start)
            .read_field(0, PIN, s, marks)?
            .read_field(1, UNIT, s, marks)?
            .read_field(2, TIME, s, marks)?
            .read_field(3, OFF_TIME, s, marks),
        7 => empty(start)
            .read_field(0, PIN, s, marks)?
            .read_field(1, PIN, s, marks)?
            .read_field(2, TIME, s, marks),
        8 => empty(start)
            .read_field(0, PIN, s, marks)?
            .read_field(1, PIN, s, marks)?
            .read_field(2, PIN, s, marks)?
            .read_field(3, PIN, s, marks)?
            .read_field(4, PLUS_MINUS, s, marks),
        9 => empty(start)
            .read_field(0, PIN, s, marks)?
            .read_field(1, RELATION, s, marks)?
            .read_field(2, WORD_PIN, s, marks)?
            .read_field(3, WORD_PIN, s, marks),
        10 => empty(start)
            .read_field(0, PIN, s, marks)?
            .read_field(1, PLUS_MINUS, s, marks)?
            .read_field(2, DIVISOR, s, marks)?
            .read_field(3, PLUS_MINUS, s, marks)?
            .read_field(4, WORD_PIN, s, marks),
        11 => empty(start)
            .read_field(0, PIN, s, marks)?
            .read_field(1, EITHER_WAY, s, marks)?
            .read_field(2, WORD_PIN, s, marks)?
            .read_field(3, WORD_PIN, s, marks)?
            .read_field(4, WORD_PIN, s, marks),
        _ => empty(start)
            .read_field(0, PIN, s, marks)?
            .read_field(1, WORD_PIN, s, marks)?
            .read_field(2, WORD_PIN, s, marks)?
            .read_field(3, WORD_PIN, s, marks),
    }
}

// What acceptance asks of a block: its memory, its step figure and its mark; and the place after it.
#[derive(Clone, Copy)]
pub struct Brief {
    pub memory: u32,
    pub figure: u32,
    pub mark: u8,
    pub next: usize,
}

// The block at a place.
pub fn read_block(s: &[u8], at: usize, marks: &[u8; 200]) -> Result<Brief, Fault>
    ensures { brief_of_answer result ≡ brief_of (block_at marks.now s.now at) }
{
    let (v, start) = numbers::read_number(s, at, numbers::KIND_NUMBER, 0, marks)?;
    let kind = v as u8;
    let row = read_row(s, start, kind, marks)?;
    Ok(Brief {
        memory: kinds::memory_of(kind) + row.nodes,
        figure: kinds::figure_of(row.nodes),
        mark: kinds::mark_of(kind),
        next: row.next,
    })
}
