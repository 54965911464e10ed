// Formulas as text: or-lists of xor-lists of and-lists of parts, whose parts may hold an or-list in parentheses again.
#![tactic(auto)]

ghost use Rattle.std.specs.Prelude.{◌≡◌, suc, max, ◌<◌};
ghost use Rattle.grammar.specs.Grammar.{or_list, xor_list, and_list, part};
ghost use Rattle.spelling.specs.Spelling.{level_of};
ghost use Rattle.parsing.specs.Listing.{Lists};
ghost use Rattle.parsing.specs.Parsing.{Ready, Parses};

use nodelist::PLACES;

// How many parentheses may be open at once.
const MOST_OPEN: u8 = 16;

// What a list or a part was read as: the place behind it, how many nodes it has and how deep it is.
#[derive(Clone, Copy)]
struct Piece {
    next: usize,
    count: usize,
    deep: usize,
}

// How deep a node over two parts is.
fn over(a: usize, b: usize) -> usize
    requires { max a b < 18446744073709551615 }
    ensures { result ≡ suc (max a b) }
{
    if a < b { b + 1 } else { a + 1 }
}

// A name or an or-list in parentheses, after any number of `!`, with the spaces around it; or the place of a bad byte.
#[cycle(and_list_by_level_list_or_list_part_xor_list)]
fn part(
    text: &[u8],
    at: usize,
    around: u8,
    nodes: &mut [u8; PLACES],
    first: usize,
) -> Result<Piece, usize>
    requires { Ready text.now at first }
    ensures { Parses text.now around part at first nodes.old nodes.new result }
{
    let mut p = spelling::skip_spaces(text, at);
    let mut nots: usize = 0;
    let mut b = spelling::byte_at(text, p);
    while b == b'!' {
        nodelist::put(nodes, first + nots, 0);
        nots += 1;
        p = spelling::skip_spaces(text, p + 1);
        b = spelling::byte_at(text, p);
    }
    if b == b'(' {
        if MOST_OPEN <= around {
            return Err(p);
        }
        let inner = or_list(text, p + 1, around + 1, nodes, first + nots)?;
        if spelling::byte_at(text, inner.next) != b')' {
            return Err(inner.next);
        }
        return Ok(Piece {
            next: spelling::skip_spaces(text, inner.next + 1),
            count: nots + inner.count,
            deep: nots + inner.deep,
        });
    }
    let (r, next) = spelling::read_name(text, p)?;
    nodelist::put(nodes, first + nots, (6 + r) as u8);
    Ok(Piece {
        next: spelling::skip_spaces(text, next),
        count: nots + 1,
        deep: nots + 1,
    })
}

// Parts between `&` and `!&`.
#[cycle(and_list_by_level_list_or_list_part_xor_list)]
fn and_list(
    text: &[u8],
    at: usize,
    around: u8,
    nodes: &mut [u8; PLACES],
    first: usize,
) -> Result<Piece, usize>
    requires { Ready text.now at first }
    ensures { Parses text.now around and_list at first nodes.old nodes.new result }
{
    list(text, at, around, nodes, first, spelling::AND_LIST)
}

// And-lists between `^`.
#[cycle(and_list_by_level_list_or_list_part_xor_list)]
fn xor_list(
    text: &[u8],
    at: usize,
    around: u8,
    nodes: &mut [u8; PLACES],
    first: usize,
) -> Result<Piece, usize>
    requires { Ready text.now at first }
    ensures { Parses text.now around xor_list at first nodes.old nodes.new result }
{
    list(text, at, around, nodes, first, spelling::XOR_LIST)
}

// Xor-lists between `|` and `!|`.
#[cycle(and_list_by_level_list_or_list_part_xor_list)]
fn or_list(
    text: &[u8],
    at: usize,
    around: u8,
    nodes: &mut [u8; PLACES],
    first: usize,
) -> Result<Piece, usize>
    requires { Ready text.now at first }
    ensures { Parses text.now around or_list at first nodes.old nodes.new result }
{
    list(text, at, around, nodes, first, spelling::OR_LIST)
}

// A list, or a part, by its level.
#[cycle(and_list_by_level_list_or_list_part_xor_list)]
fn by_level(
    text: &[u8],
    at: usize,
    around: u8,
    nodes: &mut [u8; PLACES],
    first: usize,
    level: u8,
) -> Result<Piece, usize>
    requires ready { Ready text.now at first }
    requires level_bound { level < 4 }
    ensures { Parses text.now around (level_of level) at first nodes.old nodes.new result }
{
    match level {
        spelling::OR_LIST => or_list(text, at, around, nodes, first),
        spelling::XOR_LIST => xor_list(text, at, around, nodes, first),
        spelling::AND_LIST => and_list(text, at, around, nodes, first),
        _ => part(text, at, around, nodes, first),
    }
}

// A list of a level: its items are of the next, and what stands before an operator is grouped before what stands behind it.
#[cycle(and_list_by_level_list_or_list_part_xor_list)]
fn list(
    text: &[u8],
    at: usize,
    around: u8,
    nodes: &mut [u8; PLACES],
    first: usize,
    level: u8,
) -> Result<Piece, usize>
    requires ready { Ready text.now at first }
    requires level_bound { level < 3 }
    ensures { Parses text.now around (level_of level) at first nodes.old nodes.new result }
{
    let mut whole = by_level(text, at, around, nodes, first, level + 1)?;
    while let Some((op, behind)) = spelling::read_sign(text, whole.next, level)? {
        nodelist::insert(nodes, first, whole.count, op);
        let item = by_level(
            text,
            behind,
            around,
            nodes,
            first + whole.count + 1,
            level + 1,
        )?;
        whole = Piece {
            next: item.next,
            count: whole.count + item.count + 1,
            deep: over(whole.deep, item.deep),
        };
    }
    Ok(whole)
}

// The tree of a text: how many nodes it has and how deep it is, and their numbers, as far as there are places.
#[derive(Clone, Copy)]
pub struct Tree {
    pub count: usize,
    pub deep: usize,
    pub nodes: [u8; PLACES],
}

// Reads a whole text, whatever the size of its tree; or the place of its first bad byte.
pub fn list_nodes(text: &[u8]) -> Result<Tree, usize>
    ensures { Lists text.now result }
{
    let mut nodes = [0u8; PLACES];
    let whole = or_list(text, 0, 0, &mut nodes, 0)?;
    if whole.next < text.len() {
        return Err(whole.next);
    }
    Ok(Tree {
        count: whole.count,
        deep: whole.deep,
        nodes,
    })
}
