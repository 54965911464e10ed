// The evaluator of expressions, over their bytes: value and steps.
#![tactic(auto)]

ghost use Rattle.std.specs.Prelude.{◌≡◌, ◌≤◌, ◌-◌};
ghost use Rattle.nodes.specs.Reading.{expr_at, passed, passed_of_answer};
ghost use Rattle.expression.specs.Expression.{gate_of, skips_of, truth_table, skip_table, bit_in, valued, joined, value_of_answer};

use nodes::Node;
use terms::Fault;

// What an operator of two parts makes of x and y, as bit 2x + y of a number.
#[tactic(auto, unfolding(crate::specs::Expression::gate_of))]
fn truths_of(op: u32) -> u32
    ensures { result ≡ truth_table (gate_of op) }
{
    match op {
        1 => 8,
        2 => 14,
        3 => 6,
        4 => 7,
        _ => 1,
    }
}

// What an operator of two parts makes of them.
#[tactic(auto, using(crate::proofs::Laws::bit_small, crate::proofs::Laws::truth_bit))]
fn gate(op: u32, x: bool, y: bool) -> bool
    ensures { result ≡ gate_of op x y }
{
    let k = 2 * u32::from(x) + u32::from(y);
    (truths_of(op) >> k) % 2 == 1
}

// Whether an operator whose first part came to x leaves its second part unvisited, as bit x of a number.
#[tactic(auto, unfolding(crate::specs::Expression::skips_of))]
fn skips_of(op: u32) -> u32
    ensures { result ≡ skip_table (skips_of op) }
{
    match op {
        1 => 1,
        2 => 2,
        3 => 0,
        4 => 1,
        _ => 2,
    }
}

// Whether the second part is left unvisited.
#[tactic(auto, using(crate::proofs::Laws::bit_small, crate::proofs::Laws::skip_bit))]
fn skips(op: u32, x: bool) -> bool
    ensures { result ≡ skips_of op x }
{
    (skips_of(op) >> u32::from(x)) % 2 == 1
}

// The value of an expression, its steps, the place after it and the nodes left.
#[derive(Clone, Copy, Debug, PartialEq, Eq)]
pub struct Value {
    pub on: bool,
    pub steps: u32,
    pub next: usize,
    pub left: u8,
}

// The expression at a place, where `depth` levels and `left` nodes are left and `bits` has what each bit reference reads as.
#[cycle(eval_part_second)]
#[tactic(auto, using(nodes::proofs::Expressions::reading, numbers::proofs::References::bit_code_lem, crate::proofs::Laws::valuing))]
pub fn eval(
    s: &[u8],
    at: usize,
    depth: u8,
    left: u8,
    bits: &[bool; 234],
    marks: &[u8; 200],
) -> Result<Value, Fault>
    ensures { value_of_answer result ≡ valued (bit_in bits.now) left (expr_at marks.now depth left s.now at) }
{
    let (node, next) = nodes::head(s, at, depth, left, marks)?;
    match node {
        Node::Leaf(r) => Ok(Value {
            on: bits[r as usize],
            steps: 1,
            next,
            left: left - 1,
        }),
        Node::One => {
            let a = eval(s, next, depth - 1, left - 1, bits, marks)?;
            Ok(Value {
                on: !a.on,
                steps: a.steps + 1,
                ..a
            })
        }
        Node::Two(op) => {
            let a = part(s, next, depth - 1, left - 1, bits, marks)?;
            second(s, a.next, depth - 1, a.left, bits, marks, op, a.on, a.steps)
        }
    }
}

// Passes over a part: a leaf at once.
#[tactic(auto, using(nodes::proofs::Expressions::reading))]
fn skip(s: &[u8], at: usize, depth: u8, left: u8, marks: &[u8; 200]) -> Result<(u8, usize), Fault>
    ensures { passed_of_answer result ≡ passed left (expr_at marks.now depth left s.now at) }
{
    if let Ok((Node::Leaf(_), next)) = nodes::head(s, at, depth, left, marks) {
        return Ok((left - 1, next));
    }
    nodes::pass(s, at, depth, left, marks)
}

// The second part of an operator whose first part came to x in p steps.
#[cycle(eval_part_second)]
#[tactic(auto, using(crate::proofs::Laws::joining))]
fn second(
    s: &[u8],
    at: usize,
    depth: u8,
    left: u8,
    bits: &[bool; 234],
    marks: &[u8; 200],
    op: u32,
    x: bool,
    p: u32,
) -> Result<Value, Fault>
    requires { p ≤ 255 }
    ensures { value_of_answer result ≡ joined op x p (bit_in bits.now) left (expr_at marks.now depth left s.now at) }
{
    if skips(op, x) {
        let (left, next) = skip(s, at, depth, left, marks)?;
        return Ok(Value {
            on: gate(op, x, false),
            steps: p + 1,
            next,
            left,
        });
    }
    let b = part(s, at, depth, left, bits, marks)?;
    Ok(Value {
        on: gate(op, x, b.on),
        steps: p + b.steps + 1,
        ..b
    })
}

// A part of an operator: a leaf is answered at once, anything else is evaluated.
#[cycle(eval_part_second)]
#[tactic(auto, using(nodes::proofs::Expressions::reading, numbers::proofs::References::bit_code_lem))]
fn part(
    s: &[u8],
    at: usize,
    depth: u8,
    left: u8,
    bits: &[bool; 234],
    marks: &[u8; 200],
) -> Result<Value, Fault>
    ensures { value_of_answer result ≡ valued (bit_in bits.now) left (expr_at marks.now depth left s.now at) }
{
    if let Ok((Node::Leaf(r), next)) = nodes::head(s, at, depth, left, marks) {
        return Ok(Value {
            on: bits[r as usize],
            steps: 1,
            next,
            left: left - 1,
        });
    }
    eval(s, at, depth, left, bits, marks)
}
