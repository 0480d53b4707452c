//! Parts that are made while an expression is read.

ghost use Rattle.std.specs.Prelude.{◌≡◌, List, nat_le};
ghost use Rattle.script_grammar.specs.Interpretation.{Interpretation};
ghost use Rattle.script_grammar.specs.Proper.{rank, left_rank};
ghost use Rattle.script_grammar.specs.Shows.{ShowAll, ShowParam};
ghost use Rattle.script_grammar.specs.Tree as model;
ghost use Rattle.grammar_parser_specs.specs.Exprs as pure;
ghost use Rattle.parse_exprs.specs.Ranks.{rank_of, raises, assigns, begins};
ghost use Rattle.parse_exprs.specs.Simple.{is_plain};
ghost use Rattle.std.specs.List.{list_all};

use script_grammar::node::{NodeFuncBody, NodeParam};
use script_grammar::tree::Ident;

/// A turn of a loop: its next item, or how it stops.
#[derive(Drop)]
pub enum Turned<A, B> {
    Next(A),
    Last(B),
}

/// What a loop read.
#[derive(Drop)]
pub struct Items<A, B> {
    pub items: Vec<A>,
    pub last: B,
}

/// How loosely an expression binds, as far as the parser asks.
#[derive(Clone, Copy, Debug, PartialEq, Eq)]
pub enum Rank {
    /// It may begin a chain of members and calls.
    Head,
    /// It may stand at the left of an assignment.
    Left,
    /// It may be raised to a power.
    Update,
    Other,
}

/// How an expression ends, as far as a semicolon that is left out after it asks.
#[derive(Clone, Copy, Debug)]
pub enum Ending {
    /// Its last part is an arrow with a braced body.
    BracedArrow,
    /// Its last part is a postfix `++` or `--`.
    Postfix,
    Operand,
}

/// An expression, how loosely it binds, and how it ends.
#[derive(Drop)]
pub struct Ranked<E> {
    pub node: E,
    pub rank: Rank,
    pub ending: Ending,
}

/// A part, and how an expression ends that ends with it.
#[derive(Drop)]
pub struct Ended<A> {
    pub part: A,
    pub ending: Ending,
}

impl Rank {
    /// Whether what binds so may begin a chain of members and calls.
    pub fn may_begin_chain(self) -> bool
        ensures { result ≡ begins self }
    {
        matches!(self, Rank::Head)
    }

    /// Whether what binds so may stand at the left of an assignment.
    pub fn may_be_assigned(self) -> bool
        ensures { result ≡ assigns self }
    {
        matches!(self, Rank::Head | Rank::Left)
    }

    /// Whether what binds so may be raised to a power.
    pub fn may_be_raised(self) -> bool
        ensures { result ≡ raises self }
    {
        matches!(self, Rank::Head | Rank::Left | Rank::Update)
    }
}

/// How parameters end.
#[derive(Clone, Copy, Debug)]
pub enum ParamsEnd {
    Plain,
    /// With a comma.
    Trailing,
    /// With a rest parameter.
    Rest(Ident),
}

/// The parameters of a function, and the offset where they start.
#[derive(Drop)]
pub struct Params<E> {
    pub start: u32,
    pub params: Vec<NodeParam<E>>,
    pub comma: bool,
    pub bare: bool,
}

/// Whether this parameter has neither an initializer nor a rest mark.
fn is_plain<E>(param: &NodeParam<E>) -> bool
    ensures { result ≡ is_plain param.now }
{
    param.value.is_none() && !param.rest
}

impl<E> Params<E> {
    /// Whether no parameter has an initializer or a rest mark.
    pub fn is_simple(&self) -> bool
        ensures { result ≡ list_all is_plain self.now.params.items }
    {
        self.params.iter().all(|param| is_plain(param))
    }
}

/// An expression, how it ends, and the offset where its last token ends.
#[derive(Drop)]
pub struct Spanned<E> {
    pub value: E,
    pub ending: Ending,
    pub end: u32,
}

/// The body of an arrow, how the arrow ends, and the offset of its end.
#[derive(Drop)]
pub struct ArrowBody<E, B> {
    pub body: NodeFuncBody<E, B>,
    pub ending: Ending,
    pub end: u32,
}
