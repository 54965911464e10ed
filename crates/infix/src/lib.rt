// Expressions put as text, operators between their parts, with the fewest parentheses that keep the reading.
#![tactic(auto)]

ghost use Rattle.std.specs.Prelude.{◌≡◌, ◌+◌, ◌*◌, ◌<◌, ◌^◌};
ghost use Rattle.wire.specs.Reading.{IsGot};
ghost use Rattle.nodes.specs.Reading.{most_deep, most_nodes, expr_at};
ghost use Rattle.filling.specs.Filling.{Put};
ghost use Rattle.shown.specs.Show.{list_of};
ghost use Rattle.infix.specs.Infix.{spaced, byte_if, most_of_node, Writes, text_in};

use nodes::Node;

// The sign of an operator of two parts, with a space on both sides.
#[tactic(auto, unfolding(shown::specs::Show::sign_of))]
fn spaced(op: u32) -> &'static [u8]
    ensures { result.now ≡ spaced op }
{
    match op {
        1 => b" & ",
        2 => b" | ",
        3 => b" ^ ",
        4 => b" !& ",
        _ => b" !| ",
    }
}

// The level of the list that an operator of two parts stands in.
#[tactic(auto, unfolding(shown::specs::Show::list_of))]
fn list_of(op: u32) -> u8
    ensures { result ≡ list_of op }
{
    match op {
        1 | 4 => 2,
        3 => 1,
        _ => 0,
    }
}

// Puts a byte if it is asked for.
fn put_if(out: &mut [u8], at: usize, asked: bool, byte: u8) -> usize
    requires { at + 1 < 2 ^ 64 }
    ensures { Put (byte_if asked byte) out.old at out.new result }
{
    if asked {
        filling::put_byte(out, at, byte);
        return at + 1;
    }
    at
}

// The place after an expression, the nodes left, and the place after its text.
#[derive(Drop)]
struct Written {
    pub next: usize,
    pub left: u8,
    pub to: usize,
}

// Puts the text of the expression at a place, where a list or a part of a level is asked for.
fn write(
    s: &[u8],
    at: usize,
    depth: u8,
    left: u8,
    marks: &[u8; 200],
    level: u8,
    out: &mut [u8],
    to: usize,
) -> Written
    requires { to + most_of_node * left < 2 ^ 64 }
    ensures { Writes level left (expr_at marks.now depth left s.now at) out.old to out.new result }
{
    let (node, next) = match nodes::head(s, at, depth, left, marks) {
        Err(_) => return Written { next: at, left, to },
        Ok(read) => read,
    };
    match node {
        Node::Leaf(r) => {
            let e = names::put_name(out, to, r);
            Written {
                next,
                left: left - 1,
                to: e,
            }
        }
        Node::One => {
            filling::put_byte(out, to, b'!');
            write(s, next, depth - 1, left - 1, marks, 3, out, to + 1)
        }
        Node::Two(op) => {
            let l = list_of(op);
            let asked = l < level;
            let from = put_if(out, to, asked, b'(');
            let a = write(s, next, depth - 1, left - 1, marks, l, out, from);
            let e = filling::put(out, a.to, spaced(op));
            let b = write(s, a.next, depth - 1, a.left, marks, l + 1, out, e);
            let end = put_if(out, b.to, asked, b')');
            Written {
                next: b.next,
                left: b.left,
                to: end,
            }
        }
    }
}

// Puts the text of a whole expression, that of a BL, and answers the place after it.
pub fn write_expression(s: &[u8], at: usize, marks: &[u8; 200], out: &mut [u8], to: usize) -> usize
    requires { IsGot (expr_at marks.now most_deep most_nodes s.now at) × (to + most_of_node * most_nodes < 2 ^ 64) }
    ensures { Put (text_in (expr_at marks.now most_deep most_nodes s.now at)) out.old to out.new result }
{
    let w = write(
        s,
        at,
        nodes::MOST_DEEP,
        nodes::MOST_NODES,
        marks,
        0,
        out,
        to,
    );
    w.to
}
