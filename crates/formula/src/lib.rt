// Formulas typed as text, within the bounds of an expression.
#![tactic(auto)]

ghost use Rattle.std.specs.Prelude.{◌≡◌};
ghost use Rattle.formula.specs.Answers.{Answers, refused};

use nodelist::PLACES;

// Number of refusal and place, and the node numbers of an expression, operator first: so many, and zeros behind them.
// Kept: what may not change, the theorem Typed (typed/specs/Typed) and the C struct of lanwezik_formula speak of each of these fields.
#[derive(Drop)]
pub struct Expression {
    pub refusal: u8,
    pub place: usize,
    pub count: u8,
    pub nodes: [u8; PLACES],
}

// A text that is refused.
fn refuse(n: u8, at: usize) -> Expression
    ensures { result ≡ refused n at }
{
    Expression {
        refusal: n,
        place: at,
        count: 0,
        nodes: [0u8; PLACES],
    }
}

// Reads a formula.
pub fn read_formula(text: &[u8]) -> Expression
    ensures { Answers text.now result }
{
    match parsing::list_nodes(text) {
        Err(k) => refuse(terms::BAD_TEXT, k),
        Ok(tree) => {
            if (nodes::MOST_NODES as usize) < tree.count
                || (nodes::MOST_DEEP as usize) < tree.deep
            {
                return refuse(terms::OUTSIDE, 0);
            }
            let nodes = tree.nodes;
            Expression {
                refusal: 0,
                place: 0,
                count: tree.count as u8,
                nodes,
            }
        }
    }
}
