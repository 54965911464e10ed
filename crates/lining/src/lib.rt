// The line of a block, read: its number and kind, and the numbers of its fields.
#![tactic(auto)]

ghost use Rattle.std.specs.Prelude.{◌≡◌, ◌<◌, ◌≤◌, length};
ghost use Rattle.numbers.specs.Types.{kind_count};
ghost use Rattle.kinds.specs.Kinds.{fields_of};
ghost use Rattle.layout.specs.Heads.{kind_at, heading_of};
ghost use Rattle.words.specs.Words.{word_count};
ghost use Rattle.columns.specs.Columns.{field_of};
ghost use Rattle.layout.specs.Fields.{named_at, fields_from};
ghost use Rattle.values.specs.Reading.{as_value};
ghost use Rattle.lining.specs.Lining.{as_kind, as_head, as_row, field_at};

// How many kinds there are.
const KINDS: u8 = 13;

// The kind whose letters stand at a place, if there is one.
fn find_kind(line: &[u8], at: usize) -> Option<u8>
    ensures { result ≡ as_kind (kind_at line.now at) }
{
    for k in 0..KINDS {
        if words::word_at(line, at, words::LETTERS + k) {
            return Some(k);
        }
    }
    None
}

// What the line of block i begins with: its kind and the place behind its letters, if it is such a line.
pub fn read_head(line: &[u8], i: u8) -> Option<(u8, usize)>
    ensures { result ≡ as_head (heading_of i line.now) }
{
    let (r, next) = spelling::read_name(line, spelling::skip_spaces(line, 0)).ok()?;
    if r != 34 + u32::from(i) {
        return None;
    }
    let at = spelling::skip_spaces(line, next);
    if at <= next {
        return None;
    }
    let k = find_kind(line, at)?;
    Some((k, at + words::word_size(words::LETTERS + k)))
}

// Whether a field of this name stands behind a space or more.
fn is_named(line: &[u8], at: usize, name: u8) -> bool
    requires { (at ≤ length line.now) × (name < word_count) }
    ensures { result ≡ named_at name line.now at }
{
    let p = spelling::skip_spaces(line, at);
    at < p
        && words::word_at(line, p, name)
        && spelling::byte_at(line, p + words::word_size(name)) == b'='
}

// Field i of a kind: its number and the place behind it. Left out, it ends where it begins.
fn read_field(line: &[u8], at: usize, kind: u8, i: u8) -> Option<(u32, usize)>
    requires at_in_bounds { at ≤ length line.now }
    requires kind_nonzero { ((0 < kind) × (kind < kind_count)) × (i < length (fields_of kind)) }
    ensures { result ≡ as_value (field_at (field_of kind i) line.now at) }
{
    let name = columns::name_of(kind, i);
    if is_named(line, at, name) {
        let p = spelling::skip_spaces(line, at) + words::word_size(name) + 1;
        return values::read_value(line, p, columns::type_of(kind, i));
    }
    let v = columns::left_out_of(kind, i);
    if v == columns::NEVER {
        return None;
    }
    Some((u32::from(v), at))
}

// The numbers of a row's fields, from a place to the end of the line, if they are the fields of a kind.
pub fn read_fields(line: &[u8], start: usize, kind: u8) -> Option<[u32; 5]>
    requires { (start ≤ length line.now) × ((0 < kind) × (kind < kind_count)) }
    ensures { result ≡ as_row (fields_from (fields_of kind) line.now start) }
{
    let mut numbers = [0u32; 5];
    let mut at = start;
    let count = columns::count_of(kind);
    for i in 0..count {
        let (n, next) = read_field(line, at, kind, i)?;
        numbers[i as usize] = n;
        at = next;
    }
    if spelling::skip_spaces(line, at) < line.len() {
        return None;
    }
    Some(numbers)
}
