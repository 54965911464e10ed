// The fields of the table of kinds, for the code: kinds/specs/Kinds, column by column.
#![tactic(auto)]

ghost use Rattle.std.specs.Prelude.{◌≡◌, ◌<◌, length};
ghost use Rattle.numbers.specs.Types.{kind_count};
ghost use Rattle.kinds.specs.Kinds.{fields_of};
ghost use Rattle.columns.specs.Columns.{field_of, row, left_code};

use numbers::{DIVISOR, EITHER_WAY, OFF_TIME, PIN, PLUS_MINUS, WORD_PIN};
use words::{
    A, B, C, D, H, I, L, MODE, OFF, ON, P, PRESET, PRIORITY, R, RELATION, S, TIME, U, UNIT, X,
};

// The name of a field without one, and of no field.
pub const NAMELESS: u8 = 34;

// The type of a BL's field.
pub const EXPRESSION: u8 = 13;

// The type of no field.
pub const NOTHING: u8 = 14;

// For a field that must stand in a listing: no bit reference.
pub const NEVER: u8 = 234;

// The fields of a kind, in the order of the table: the name of each, by the words' numbers, and its type.
#[tactic(auto, unfolding(kinds::specs::Kinds::fields_of))]
fn row_of(kind: u8) -> &'static [(u8, u8)]
    requires { kind < kind_count }
    ensures { result.now ≡ row (fields_of kind) }
{
    match kind {
        0 => &[(NAMELESS, EXPRESSION)],
        1 => &[(S, PIN), (R, PIN), (PRIORITY, EITHER_WAY)],
        2 => &[(I, PIN), (MODE, EITHER_WAY)],
        3 => &[(I, PIN), (C, PIN)],
        4 => &[
            (I, PIN),
            (C, PIN),
            (UNIT, numbers::UNIT),
            (ON, numbers::TIME),
            (OFF, numbers::TIME),
        ],
        5 => &[
            (I, PIN),
            (C, PIN),
            (UNIT, numbers::UNIT),
            (TIME, numbers::TIME),
        ],
        6 => &[
            (I, PIN),
            (UNIT, numbers::UNIT),
            (ON, numbers::TIME),
            (OFF, OFF_TIME),
        ],
        7 => &[(I, PIN), (C, PIN), (PRESET, numbers::TIME)],
        8 => &[(U, PIN), (D, PIN), (P, PIN), (C, PIN), (PRESET, PLUS_MINUS)],
        9 => &[
            (I, PIN),
            (RELATION, numbers::RELATION),
            (A, WORD_PIN),
            (B, WORD_PIN),
        ],
        10 => &[
            (I, PIN),
            (A, PLUS_MINUS),
            (B, DIVISOR),
            (C, PLUS_MINUS),
            (X, WORD_PIN),
        ],
        11 => &[
            (I, PIN),
            (MODE, EITHER_WAY),
            (L, WORD_PIN),
            (X, WORD_PIN),
            (H, WORD_PIN),
        ],
        _ => &[(I, PIN), (X, WORD_PIN), (H, WORD_PIN), (L, WORD_PIN)],
    }
}

// How many fields a kind has.
pub fn count_of(kind: u8) -> u8
    requires { kind < kind_count }
    ensures { result ≡ length (fields_of kind) }
{
    row_of(kind).len() as u8
}

// The name of field i of a kind, by the words' numbers.
pub fn name_of(kind: u8, i: u8) -> u8
    requires { (kind < kind_count) × (i < 5) }
    ensures { result ≡ (field_of kind i).name }
{
    match row_of(kind).get(usize::from(i)) {
        Some(&(name, _)) => name,
        None => NAMELESS,
    }
}

// The type of field i of a kind.
pub fn type_of(kind: u8, i: u8) -> u8
    requires { (kind < kind_count) × (i < 5) }
    ensures { result ≡ (field_of kind i).type }
{
    match row_of(kind).get(usize::from(i)) {
        Some(&(_, ty)) => ty,
        None => NOTHING,
    }
}

// What field i of a kind is read as where it is left out: a bit pin as off.
pub fn left_out_of(kind: u8, i: u8) -> u8
    requires { (kind < kind_count) × (i < 5) }
    ensures { result ≡ left_code (field_of kind i).left_out_as }
{
    if type_of(kind, i) == PIN { 0 } else { NEVER }
}
