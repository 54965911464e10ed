// The line of the alarms in a listing, put as text from the bytes of a program that can be read.
#![tactic(auto)]

ghost use Rattle.std.specs.Prelude.{◌+◌, ◌<◌, ◌^◌};
ghost use Rattle.wire.specs.Reading.{IsGot};
ghost use Rattle.filling.specs.Filling.{Put};
ghost use Rattle.program.specs.Program.{references_at, alarms_at};
ghost use Rattle.alarms.specs.Texts.{names_in, alarms_in};

// Puts n bit references from `start` on by name, each with a space before it.
fn put_names(s: &[u8], start: usize, n: u32, marks: &[u8; 200], out: &mut [u8], to: usize) -> usize
    requires { IsGot (references_at marks.now n s.now start) × ((n < 33) × (to + 165 < 2 ^ 64)) }
    ensures { Put (names_in (references_at marks.now n s.now start)) out.old to out.new result }
{
    let mut at = start;
    let mut end = to;
    for _ in 0..n {
        let r = known::read_known(s, at, numbers::PIN, marks);
        filling::put_byte(out, end, b' ');
        end = names::put_name(out, end + 1, r.number);
        at = r.next;
    }
    end
}

// Puts the line of the alarms at a place of a program.
pub fn put_alarms(s: &[u8], at: usize, marks: &[u8; 200], out: &mut [u8], to: usize) -> usize
    requires { IsGot (alarms_at marks.now s.now at) × (to + 175 < 2 ^ 64) }
    ensures { Put (alarms_in (alarms_at marks.now s.now at)) out.old to out.new result }
{
    let count = known::read_known(s, at, numbers::ALARM_COUNT, marks);
    let start = count.next;
    let begun = words::put_word(out, to, words::ALARMS);
    let end = put_names(s, start, count.number, marks, out, begun);
    filling::put_byte(out, end, b'\n');
    end + 1
}
