// The line of a block taken into a buffer: of a good line the numbers that are kept of its block, of a bad one nothing.
#![tactic(auto)]

ghost use Rattle.std.specs.Prelude.{◌∷◌, ◌&&◌, ◌≡◌, ◌+◌, ◌*◌, ◌<◌, ◌≤◌, ◌^◌, leb, length};
ghost use Rattle.filling.specs.Filling.{Put};
ghost use Rattle.numbers.specs.Types.{kind_count};
ghost use Rattle.nodes.specs.Reading.{most_nodes, most_deep};
ghost use Rattle.writing.specs.Expressions.{bytes_of};
ghost use Rattle.taking.specs.Taking.{RestSays, Takes, TakesLine};

// The place behind what was put of a block, and whether the block is small.
#[derive(Clone, Copy)]
pub struct Taken {
    pub next: usize,
    pub small: bool,
}

// Whether a tree is within the bounds of an expression.
fn is_small(count: usize, deep: usize) -> bool
    ensures { result ≡ leb count most_nodes && leb deep most_deep }
{
    count <= (nodes::MOST_NODES as usize) && deep <= (nodes::MOST_DEEP as usize)
}

// Puts a BL: its kind, and then the numbers of its nodes.
fn put_tree(out: &mut [u8], at: usize, nodes: &[u8]) -> usize
    requires { at + 3 + 3 * length nodes.now < 2 ^ 64 }
    ensures { Put (bytes_of (0 ∷ nodes.now)) out.old at out.new result }
{
    let p = storing::put_number(out, at, 0);
    storing::put_nodes(out, p, nodes)
}

// The formula of a BL, a space before it, from a place to the end of the line.
fn take_formula(line: &[u8], at: usize, out: &mut [u8], to: usize) -> Option<Taken>
    requires { to + 200 < 2 ^ 64 }
    ensures { Takes (RestSays 0 line.now at) out.old to out.new result }
{
    if spelling::byte_at(line, at) != b' ' {
        return None;
    }
    let start = at + 1;
    let tree = parsing::list_nodes(&line[start..]).ok()?;
    let nodes = tree.nodes;
    let n = tree.count.min(nodelist::PLACES);
    let next = put_tree(out, to, &nodes[..n]);
    Some(Taken {
        next,
        small: is_small(tree.count, tree.deep),
    })
}

// The fields of any other kind, from a place to the end of the line.
fn take_row(line: &[u8], at: usize, kind: u8, out: &mut [u8], to: usize) -> Option<Taken>
    requires at_in_bounds { (at ≤ length line.now) × ((0 < kind) × (kind < kind_count)) }
    requires to_bound { to + 200 < 2 ^ 64 }
    ensures { Takes (RestSays kind line.now at) out.old to out.new result }
{
    let numbers = lining::read_fields(line, at, kind)?;
    let count = columns::count_of(kind) as usize;
    let next = storing::put_row(out, to, kind, &numbers[..count]);
    Some(Taken { next, small: true })
}

// The line of block i: what is kept of its block is put at a place. Of a bad line nothing is.
pub fn take_line(line: &[u8], i: u8, out: &mut [u8], to: usize) -> Option<Taken>
    requires { (i < 200) × (to + 200 < 2 ^ 64) }
    ensures { TakesLine i line.now out.old to out.new result }
{
    let (kind, at) = lining::read_head(line, i)?;
    if kind == 0 {
        take_formula(line, at, out, to)
    } else {
        take_row(line, at, kind, out, to)
    }
}
