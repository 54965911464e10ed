// The table of kinds, for the code.
#![tactic(auto)]

ghost use Rattle.std.specs.Prelude.{◌≡◌, ◌<◌};
ghost use Rattle.numbers.specs.Types.{kind_count};
ghost use Rattle.kinds.specs.Kinds.{kind_of, figure_for, mark_for};

// The most memory that a program may use.
pub const MEMORY_LIMIT: u32 = 5000;

// The memory of a kind, of a BL without its nodes.
#[tactic(auto, unfolding(crate::specs::Kinds::kind_of))]
pub fn memory_of(kind: u8) -> u32
    requires { kind < kind_count }
    ensures { result ≡ (kind_of kind).memory }
{
    match kind {
        0 => 10,
        1 => 14,
        2 => 10,
        3 => 13,
        4 => 19,
        5 => 17,
        6 => 19,
        7 => 16,
        8 => 22,
        9 => 17,
        10 => 22,
        11 => 20,
        _ => 19,
    }
}

// The step figure of a block of so many nodes.
pub fn figure_of(nodes: u32) -> u32
    ensures { result ≡ figure_for nodes }
{
    if nodes == 0 { 1 } else { nodes }
}

// Whether a kind has a word output.
#[tactic(auto, unfolding(crate::specs::Kinds::kind_of))]
fn has_word(kind: u8) -> bool
    requires { kind < kind_count }
    ensures { result ≡ (kind_of kind).has_word }
{
    match kind {
        7 => true,
        8 => true,
        10 => true,
        _ => false,
    }
}

// The mark of a block of a kind: 2 where it has a word, else 1.
pub fn mark_of(kind: u8) -> u8
    requires { kind < kind_count }
    ensures { result ≡ mark_for kind }
{
    if has_word(kind) { 2 } else { 1 }
}
