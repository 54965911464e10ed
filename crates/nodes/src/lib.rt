// Expressions in the bytes of a program: a node, and passing over a whole one.
#![tactic(auto)]

ghost use Rattle.std.specs.Prelude.{◌≡◌};
ghost use Rattle.nodes.specs.Reading.{node_of_answer, head_at, expr_at, passed, passed_of_answer};

use terms::{Fault, Refusal};

// An expression's most levels and nodes.
pub const MOST_DEEP: u8 = 16;

pub const MOST_NODES: u8 = 63;

// A node of an expression: a bit reference, or an operator of one part or of two.
#[derive(Clone, Copy, Debug, PartialEq, Eq)]
pub enum Node {
    Leaf(u32),
    One,
    Two(u32),
}

// The node at a place, where `depth` levels and `left` nodes are left, and the place after it.
#[tactic(auto, unfolding(crate::specs::Reading::head_at))]
pub fn head(
    s: &[u8],
    at: usize,
    depth: u8,
    left: u8,
    marks: &[u8; 200],
) -> Result<(Node, usize), Fault>
    ensures { node_of_answer result ≡ head_at marks.now depth left s.now at }
{
    let (v, next) = numbers::read_number(s, at, numbers::NODE_NUMBER, 0, marks)?;
    if depth == 0 || left == 0 {
        return Err(Fault {
            refusal: Refusal::Outside,
            at,
        });
    }
    match v {
        0 => Ok((Node::One, next)),
        1..=5 => Ok((Node::Two(v), next)),
        _ => Ok((Node::Leaf(v - 6), next)),
    }
}

// Passes over the expression at a place, from node to node, and over the first of two parts by itself where it is no leaf.
// What is left of `left` nodes, and the place after the expression.
#[tactic(auto, using(crate::proofs::Expressions::passing))]
pub fn pass(
    s: &[u8],
    at: usize,
    depth: u8,
    left: u8,
    marks: &[u8; 200],
) -> Result<(u8, usize), Fault>
    ensures { passed_of_answer result ≡ passed left (expr_at marks.now depth left s.now at) }
{
    let mut from = at;
    let mut levels = depth;
    let mut nodes = left;
    loop {
        let (node, next) = head(s, from, levels, nodes, marks)?;
        match node {
            Node::Leaf(_) => return Ok((nodes - 1, next)),
            Node::One => {
                from = next;
                levels -= 1;
                nodes -= 1;
            }
            Node::Two(_) => {
                levels -= 1;
                if let Ok((Node::Leaf(_), after)) = head(s, next, levels, nodes - 1, marks) {
                    from = after;
                    nodes -= 2;
                } else {
                    let (rest, end) = pass(s, next, levels, nodes - 1, marks)?;
                    from = end;
                    nodes = rest;
                }
            }
        }
    }
}
