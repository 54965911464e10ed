// The fields of a block's line, put as text by the numbers that carry them.
#![tactic(auto)]

ghost use Rattle.std.specs.Prelude.{◌≡◌, ◌∷◌, ◌++◌, ◌+◌, ◌<◌, ◌^◌};
ghost use Rattle.filling.specs.Filling.{Put};
ghost use Rattle.numbers.specs.Types.{kind_count};
ghost use Rattle.grammar.specs.Grammar.{space};
ghost use Rattle.words.specs.Words.{word_count, word_text};
ghost use Rattle.values.specs.Values.{value_text};
ghost use Rattle.kinds.specs.Kinds.{fields_of};
ghost use Rattle.columns.specs.Columns.{field_of};
ghost use Rattle.layout.specs.Layout.{equals};
ghost use Rattle.layout.specs.Listed.{leaves_out, field_text};
ghost use Rattle.fields.specs.Codes.{IsField, codes_text};

// Whether a field is left out of its line: a bit pin that is off.
fn leaves_out(kind: u8, i: u8, v: u32) -> bool
    requires { (kind < kind_count) × (i < 5) }
    ensures { result ≡ leaves_out (field_of kind i).left_out_as v }
{
    v == 0 && columns::left_out_of(kind, i) == 0
}

// Puts a field: a space, its name, and its value.
fn put_named(out: &mut [u8], to: usize, name: u8, ty: u8, v: u32) -> usize
    requires { (name < word_count) × (to + 21 < 2 ^ 64) }
    ensures { Put (space ∷ (word_text name ++ (equals ∷ value_text ty v))) out.old to out.new result }
{
    filling::put_byte(out, to, b' ');
    let named = words::put_word(out, to + 1, name);
    filling::put_byte(out, named, b'=');
    printing::put_value(out, named + 1, ty, v)
}

// Puts field i of a block of a kind, if it is not left out.
fn put_field(out: &mut [u8], to: usize, kind: u8, i: u8, v: u32) -> usize
    requires { IsField kind i × (to + 21 < 2 ^ 64) }
    ensures { Put (field_text (field_of kind i) v) out.old to out.new result }
{
    if leaves_out(kind, i, v) {
        return to;
    }
    put_named(
        out,
        to,
        columns::name_of(kind, i),
        columns::type_of(kind, i),
        v,
    )
}

// Puts the fields of a block of any kind but BL, by their numbers.
pub fn put_fields(out: &mut [u8], to: usize, kind: u8, fields: [u32; 5]) -> usize
    requires { (0 < kind) × ((kind < kind_count) × (to + 155 < 2 ^ 64)) }
    ensures { Put (codes_text (fields_of kind) fields) out.old to out.new result }
{
    let count = columns::count_of(kind);
    let mut next = to;
    for i in 0..count {
        next = put_field(out, next, kind, i, fields[usize::from(i)]);
    }
    next
}
