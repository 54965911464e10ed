// The alarm word, read from the references that end a program.
ghost use Rattle.std.specs.Prelude.{◌≡◌, ◌<◌, ◌≤◌};
ghost use Rattle.terms.specs.Choice.{pick};
ghost use Rattle.numbers.specs.Types.{bit_ref};
ghost use Rattle.program.specs.Program.{references_at, alarms_at};
ghost use Rattle.expression.specs.Expression.{bit_in};
ghost use Rattle.trial.specs.Trial.{alarmed_of, to_end};

// The weight of an alarm's bit if the reference reads as on, else nothing.
fn weigh(bits: &[bool; 234], r: u32, weight: u64) -> u64
    requires { r < 234 }
    ensures { result ≡ pick (bit_in bits.now (bit_ref r)) weight 0 }
{
    let k = r as usize;
    if bits[k] { weight } else { 0 }
}

// The word of n bit references from `start` to the end of the program, the first lowest; none if they cannot be read.
fn references(s: &[u8], start: usize, n: u32, bits: &[bool; 234], marks: &[u8; 200]) -> Option<u32>
    requires { n ≤ 32 }
    ensures { result ≡ alarmed_of bits.now (to_end s.now (references_at marks.now n s.now start)) }
{
    let mut word: u64 = 0;
    let mut weight: u64 = 1;
    let mut at = start;
    for _ in 0..n {
        let Ok((v, next)) = numbers::read_number(s, at, numbers::PIN, 0, marks) else {
            return None;
        };
        word += weigh(bits, v, weight);
        weight *= 2;
        at = next;
    }
    if at < s.len() {
        return None;
    }
    Some(word as u32)
}

// The alarm word of the alarms at a place, to the end of the program; none if they cannot be read.
pub fn alarms(s: &[u8], at: usize, bits: &[bool; 234], marks: &[u8; 200]) -> Option<u32>
    ensures { result ≡ alarmed_of bits.now (alarms_at marks.now s.now at) }
{
    let Ok((n, next)) = numbers::read_number(s, at, numbers::ALARM_COUNT, 0, marks) else {
        return None;
    };
    references(s, next, n, bits, marks)
}
