// Classes of words, and what the code learns from a word of each.

ghost use Rattle.std.specs.Prelude.{◌≡◌, ℕ, List, Some};
ghost use Rattle.words.specs.Token.{keyword};
ghost use Rattle.words.specs.Records.{token_in};
ghost use Rattle.grammar.specs.Classes.{Class, Content, the_mark, the_keyword, a_number, a_sign, a_relation, a_prefix, an_operator, operator_of, from_rank, between_ranks};
ghost use Rattle.parser.specs.Expecting.{Finds};

use grammar::operator::{Operator, Prefix};
use words::token::{Keyword, Mark, Relation, Sign, Token};

// A class of words.
pub(crate) trait WordClass: Copy {
    // What is learned from a word of the class.
    type Found;

    // Which class of the grammar it is.
    ghost class: { Self → Class };

    // What the grammar has for what is learned.
    ghost content: { (s : Self) → Self.Found → Content (class s) };

    // What the word has of the class.
    fn find(self, token: Token) -> Option<Self::Found>
        ensures { (bs : List ℕ) → Finds (class self) (content self) (token_in bs token) result };
}

// A mark is the class of itself. Each kind of word has an impl of its own, since a case of an enum is no parameter.
impl WordClass for Mark {
    type Found = ();

    ghost class = { λ m. the_mark m };

    ghost content = { λ m x. tt };

    fn find(self, token: Token) -> Option<()> {
        match token {
            Token::Mark(m) if m == self => Some(()),
            _ => None,
        }
    }
}

// So is a reserved word.
impl WordClass for Keyword {
    type Found = ();

    ghost class = { λ k. the_keyword k };

    ghost content = { λ k x. tt };

    fn find(self, token: Token) -> Option<()> {
        match token {
            Token::Keyword(k) if k == self => Some(()),
            _ => None,
        }
    }
}

// Numbers, with their values.
#[derive(Clone, Copy)]
pub(crate) struct Numbers;

impl WordClass for Numbers {
    type Found = u32;

    ghost class = { λ s. a_number };

    ghost content = { λ s n. n };

    fn find(self, token: Token) -> Option<u32> {
        match token {
            Token::Number(n) => Some(n),
            _ => None,
        }
    }
}

// `+` and `-`.
#[derive(Clone, Copy)]
pub(crate) struct Signs;

impl WordClass for Signs {
    type Found = Sign;

    ghost class = { λ s. a_sign };

    ghost content = { λ s x. x };

    fn find(self, token: Token) -> Option<Sign> {
        match token {
            Token::Sign(s) => Some(s),
            _ => None,
        }
    }
}

// Relations.
#[derive(Clone, Copy)]
pub(crate) struct Relations;

impl WordClass for Relations {
    type Found = Relation;

    ghost class = { λ s. a_relation };

    ghost content = { λ s x. x };

    fn find(self, token: Token) -> Option<Relation> {
        match token {
            Token::Relation(r) => Some(r),
            _ => None,
        }
    }
}

// Operators before an operand, of rank `rank` at least.
#[derive(Clone, Copy)]
pub(crate) struct Prefixes {
    pub(crate) rank: usize,
}

impl WordClass for Prefixes {
    type Found = Prefix;

    ghost class = { λ s. a_prefix s.rank };

    ghost content = { λ s x. x };

    fn find(self, token: Token) -> Option<Prefix> {
        match token {
            Token::Sign(s) => allowed_prefix(self.rank, Prefix::Signed(s)),
            Token::Keyword(Keyword::Not) => allowed_prefix(self.rank, Prefix::Negation),
            _ => None,
        }
    }
}

// Operators between operands, of rank `rank` to `bound`.
#[derive(Clone, Copy)]
pub(crate) struct Operators {
    pub(crate) rank: usize,
    pub(crate) bound: usize,
}

impl WordClass for Operators {
    type Found = Operator;

    ghost class = { λ s. an_operator s.rank s.bound };

    ghost content = { λ s x. x };

    fn find(self, token: Token) -> Option<Operator> {
        allowed_operator(self.rank, self.bound, operator_of(token))
    }
}

// An operator before an operand, where its rank is at least `rank`.
fn allowed_prefix(rank: usize, o: Prefix) -> Option<Prefix>
    ensures { result ≡ from_rank rank (Some o) }
{
    Some(o).filter(|o| rank <= o.rank())
}

// An operator, where its rank is `rank` to `bound`.
fn allowed_operator(rank: usize, bound: usize, o: Option<Operator>) -> Option<Operator>
    ensures { result ≡ between_ranks rank bound o }
{
    o.filter(|o| rank <= o.rank() && o.rank() <= bound)
}

// The operator that a reserved word writes.
fn keyword_operator(k: Keyword) -> Option<Operator>
    ensures { result ≡ operator_of (keyword k) }
{
    match k {
        Keyword::Eqv => Some(Operator::Equivalence),
        Keyword::Or => Some(Operator::Disjunction),
        Keyword::And => Some(Operator::Conjunction),
        _ => None,
    }
}

// The operator that a word writes.
fn operator_of(t: Token) -> Option<Operator>
    ensures { (bs : List ℕ) → result ≡ operator_of (token_in bs t) }
{
    match t {
        Token::Sign(s) => Some(Operator::Additive(s)),
        Token::Scaling(s) => Some(Operator::Multiplicative(s)),
        Token::Keyword(k) => keyword_operator(k),
        _ => None,
    }
}
