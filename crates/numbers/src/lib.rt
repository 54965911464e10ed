// The numbers of a program, by their types: which may stand where, and whether what they refer to is there.
#![tactic(auto)]

ghost use Rattle.std.specs.Prelude.{◌≡◌, ◌<◌, get_or};
ghost use Rattle.numbers.specs.Types.{number_types, allowed, bit_ref, limits};
ghost use Rattle.numbers.specs.Reading.{bit_marked, marked, typed_at};
ghost use Rattle.wire.specs.Reading.{read_of};

use terms::{Fault, Refusal};
use wire::Unread;

// The types of number, by the names of specs/Types.
// Kept: what may not change; `values::bias_of` and `printing::put_value` promise of a type as any number, and `columns::type_of` answers with
// two types more, so that an enum would stand beside these numbers.
pub const PIN: u8 = 0;

pub const WORD_PIN: u8 = 1;

pub const PLUS_MINUS: u8 = 2;

pub const TIME: u8 = 3;

pub const UNIT: u8 = 4;

pub const EITHER_WAY: u8 = 5;

pub const RELATION: u8 = 6;

pub const DIVISOR: u8 = 7;

pub const OFF_TIME: u8 = 8;

pub const BLOCK_COUNT: u8 = 9;

pub const KIND_NUMBER: u8 = 10;

pub const ALARM_COUNT: u8 = 11;

pub const NODE_NUMBER: u8 = 12;

// How many kinds of block there are.
const KIND_COUNT: u32 = 13;

// Each type's numbers are below this.
#[inline(always)]
pub fn limit_of(ty: u8) -> u32
    requires { ty < number_types }
    ensures { result ≡ get_or limits ty 0 }
{
    match ty {
        PIN => 234,
        WORD_PIN => 66536,
        PLUS_MINUS => 65536,
        TIME => 32768,
        UNIT => 3,
        EITHER_WAY => 2,
        RELATION => 6,
        DIVISOR => 65536,
        OFF_TIME => 32768,
        BLOCK_COUNT => 201,
        KIND_NUMBER => KIND_COUNT,
        ALARM_COUNT => 33,
        _ => 240,
    }
}

// Whether v may stand as a number of type ty after the setting `before`.
#[tactic(auto, unfolding(crate::specs::Types::allowed, crate::specs::Types::excepted))]
#[inline(always)]
fn allow(ty: u8, before: u32, v: u32) -> bool
    requires { ty < number_types }
    ensures { result ≡ allowed ty before v }
{
    v < limit_of(ty)
        && match ty {
            WORD_PIN => v < 208 || 1000 <= v,
            DIVISOR => v != 32768,
            OFF_TIME => before != 0 || v != 0,
            BLOCK_COUNT => v != 0,
            _ => true,
        }
}

// Whether what a bit reference refers to is marked.
#[tactic(auto, unfolding(crate::specs::Types::bit_ref))]
#[inline(always)]
fn is_bit_marked(r: u32, marks: &[u8; 200]) -> bool
    requires { r < 234 }
    ensures { result ≡ bit_marked marks.now (bit_ref r) }
{
    r < 34 || marks[(r - 34) as usize] != 0
}

// Whether what a number of type ty refers to is marked.
#[tactic(auto, unfolding(crate::specs::Reading::marked, crate::specs::Types::said_by, crate::specs::Types::content_of, crate::specs::Types::word_ref))]
#[inline(always)]
fn is_marked(ty: u8, v: u32, marks: &[u8; 200]) -> bool
    requires { v < get_or limits ty 0 }
    ensures { result ≡ marked marks.now ty v }
{
    match ty {
        PIN => is_bit_marked(v, marks),
        NODE_NUMBER => v < 6 || is_bit_marked(v - 6, marks),
        WORD_PIN => v < 8 || 208 <= v || marks[(v - 8) as usize] == 2,
        _ => true,
    }
}

// The number of type ty at a place, after the setting `before`, and the place after it.
#[tactic(auto, using(crate::proofs::References::allowed_below), unfolding(crate::specs::Reading::typed_at))]
#[inline(always)]
pub fn read_number(
    s: &[u8],
    at: usize,
    ty: u8,
    before: u32,
    marks: &[u8; 200],
) -> Result<(u32, usize), Fault>
    requires { ty < number_types }
    ensures { read_of result ≡ typed_at marks.now ty before s.now at }
{
    match wire::number(s, at) {
        Err(Unread::BadlyFormed) => Err(Fault {
            refusal: Refusal::BadNumber,
            at,
        }),
        Err(Unread::Cut) => Err(Fault {
            refusal: Refusal::CutNumber,
            at,
        }),
        Ok((v, next)) => {
            if !allow(ty, before, v) {
                return Err(Fault {
                    refusal: Refusal::Outside,
                    at,
                });
            }
            if !is_marked(ty, v, marks) {
                return Err(Fault {
                    refusal: Refusal::Astray,
                    at,
                });
            }
            Ok((v, next))
        }
    }
}
