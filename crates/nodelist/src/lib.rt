// Node numbers in a lent array, as far as it has places: a number put at one, and a number put before others.
#![tactic(auto)]

ghost use Rattle.std.specs.Prelude.{◌∷◌, ◌≡◌, set, take, drop};
ghost use Rattle.std.proofs.lemmas.List.Edits.{sets};

// One place more than an expression may have nodes: so the first too many has one.
pub const PLACES: usize = 64;

// Puts a number at a place, if there is one.
pub fn put(nodes: &mut [u8; PLACES], at: usize, number: u8)
    ensures { nodes.new ≡ set nodes.old at number }
{
    if at < PLACES {
        nodes[at] = number;
    }
}

// Puts a number before the `count` that stand from a place on: each of these moves up by one, and what finds no place is gone.
pub fn insert(nodes: &mut [u8; PLACES], from: usize, count: usize, number: u8)
    ensures { nodes.new ≡ sets nodes.old from (number ∷ take count (drop from nodes.old)) }
{
    if from < PLACES {
        let end = from + count.min(PLACES - 1 - from);
        nodes.copy_within(from..end, from + 1);
        nodes[from] = number;
    }
}
