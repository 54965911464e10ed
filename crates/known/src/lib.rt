// What is known to stand in a program, read without refusals.
#![tactic(auto)]

ghost use Rattle.std.specs.Prelude.{◌≡◌, ◌<◌};
ghost use Rattle.wire.specs.Reading.{got, IsGot, next_of};
ghost use Rattle.numbers.specs.Types.{number_types, kind_count};
ghost use Rattle.numbers.specs.Reading.{typed_at};
ghost use Rattle.kinds.specs.Kinds.{types_of};
ghost use Rattle.block.specs.Reading.{fields_at};
ghost use Rattle.block.specs.Answers.{row_of, numbers_in};

// A number, and the place after it.
#[derive(Drop)]
pub struct Known {
    pub number: u32,
    pub next: usize,
}

// The number of type ty at a place, where no setting stands before it.
pub fn read_known(s: &[u8], at: usize, ty: u8, marks: &[u8; 200]) -> Known
    requires { (ty < number_types) × IsGot (typed_at marks.now ty 0 s.now at) }
    ensures { typed_at marks.now ty 0 s.now at ≡ got result.number result.next }
{
    let (number, next) = numbers::read_number(s, at, ty, 0, marks).unwrap();
    Known { number, next }
}

// The numbers of the fields of a block, and the place after it.
#[derive(Drop)]
pub struct KnownRow {
    pub fields: [u32; 5],
    pub next: usize,
}

// The fields of a block of this kind, from `start` on.
pub fn read_known_row(s: &[u8], start: usize, kind: u8, marks: &[u8; 200]) -> KnownRow
    requires { kind < kind_count }
    ensures { (result.fields ≡ numbers_in (row_of (fields_at marks.now (types_of kind) 0 s.now start)))
        × (result.next ≡ next_of (fields_at marks.now (types_of kind) 0 s.now start)) }
{
    match block::read_row(s, start, kind, marks) {
        Ok(row) => {
            let fields = row.fields;
            KnownRow {
                fields,
                next: row.next,
            }
        }
        Err(fault) => KnownRow {
            fields: [0u32; 5],
            next: fault.at,
        },
    }
}
