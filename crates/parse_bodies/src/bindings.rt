//! Names that are declared, with their initializers.

ghost use Rattle.std.specs.Prelude.{◌≡◌};
ghost use Rattle.script_grammar.specs.Interpretation.{Interpretation, named};
ghost use Rattle.script_grammar.specs.Shows.{MaybeOf};
ghost use Rattle.script_grammar.specs.TreeLists as model;
ghost use Rattle.grammar_parser_specs.specs.Parser.{led};
ghost use Rattle.grammar_parser_specs.specs.Stmts as pure;
ghost use Rattle.parse_exprs.specs.Answers.{Reads};
ghost use Rattle.parse_exprs.specs.Env.{env_at};
ghost use Rattle.parse_exprs.specs.Means.{Itself, TurnOf};
ghost use Rattle.parse_exprs.specs.Source.{IsSource};
ghost use Rattle.parse_bodies.specs.Means.{StmtOf, ReturnedOf, EndedBindOf, ended_bind, ShowEnded, BindsOf};

use crate::ending::StmtEnding;
use crate::part::{Binds, EndedBind, StmtNode};
use crate::pieces::semi;
use parse_exprs::part::{Ranked, Turned};
use parse_exprs::place::ParseFault;
use parse_exprs::source::Source;
use parse_exprs::state::State;
use script_grammar::handler::Handler;
use script_grammar::node::NodeBind;
use script_grammar::token::{Decl, mark};
use script_grammar::tree::Ident;

/// An initializer, where one stands here.
#[tactic(auto, unfolding(grammar_parser_specs::specs::Stmts::value_of))]
fn initializer<H: Handler>(
    state: &mut State<H>,
    source: &Source,
    with_in: bool,
    depth: u32,
) -> Result<Option<Ranked<H::E>>, ParseFault>
    requires { IsSource source.now }
    ensures { (i : Interpretation) → Reads (ReturnedOf (H.shows_expr i))
        (pure.value_of (env_at i depth) with_in) source.now i state.old.place state.new.place result }
{
    if !state.place.is_mark(source, mark::ASSIGN) {
        return Ok(None);
    }
    state.place.step(source);
    let value = state.assign(source, with_in, depth)?;
    Ok(Some(value))
}

/// A name with this initializer.
fn bound<E>(name: Ident, value: Option<Ranked<E>>) -> EndedBind<E>
    ensures { result ≡ ended_bind name value }
{
    match value {
        None => EndedBind {
            bind: NodeBind { name, value: None },
            ending: StmtEnding::BareBinding,
        },
        Some(value) => EndedBind {
            bind: NodeBind {
                name,
                value: Some(value.node),
            },
            ending: StmtEnding::Value(value.ending),
        },
    }
}

/// What stands after a name that is declared.
#[tactic(auto, unfolding(grammar_parser_specs::specs::Stmts::bind_from))]
fn bind_from<H: Handler>(
    state: &mut State<H>,
    source: &Source,
    with_in: bool,
    name: Ident,
    depth: u32,
) -> Result<EndedBind<H::E>, ParseFault>
    requires { IsSource source.now }
    ensures { (i : Interpretation) → Reads (EndedBindOf i (H.shows_expr i))
        (pure.bind_from (env_at i depth) with_in (named i name)) source.now i state.old.place state.new.place result }
{
    let value = initializer(state, source, with_in, depth)?;
    Ok(bound(name, value))
}

/// A name that is declared, with its initializer.
#[tactic(auto, unfolding(grammar_parser_specs::specs::Stmts::bind_of))]
fn bind<H: Handler>(
    state: &mut State<H>,
    source: &Source,
    with_in: bool,
    depth: u32,
) -> Result<EndedBind<H::E>, ParseFault>
    requires { IsSource source.now }
    ensures { (i : Interpretation) → Reads (EndedBindOf i (H.shows_expr i))
        (pure.bind_of (env_at i depth) with_in) source.now i state.old.place state.new.place result }
{
    let name = state.place.name(source)?;
    let bind = bind_from(state, source, with_in, name, depth)?;
    Ok(bind)
}

/// A name after a comma, where one stands here.
#[tactic(auto, unfolding(grammar_parser_specs::specs::Stmts::bind_turn))]
fn bind_turn<H: Handler>(
    state: &mut State<H>,
    source: &Source,
    with_in: bool,
    depth: u32,
) -> Result<Turned<EndedBind<H::E>, ()>, ParseFault>
    requires { IsSource source.now }
    ensures { (i : Interpretation) → Reads (TurnOf (EndedBindOf i (H.shows_expr i)) Itself)
        (pure.bind_turn (env_at i depth) with_in) source.now i state.old.place state.new.place result }
{
    if !state.place.is_mark(source, mark::COMMA) {
        return Ok(Turned::Last(()));
    }
    state.place.step(source);
    let item = bind(state, source, with_in, depth)?;
    Ok(Turned::Next(item))
}

/// The names after the first.
fn binds_led<H: Handler>(
    state: &mut State<H>,
    source: &Source,
    with_in: bool,
    first: EndedBind<H::E>,
    depth: u32,
) -> Result<Binds<H::E>, ParseFault>
    requires { IsSource source.now }
    ensures { (i : Interpretation) (b : model.Bind) → ShowEnded i (H.shows_expr i) first b
        → Reads (BindsOf i (H.shows_expr i)) (led (pure.bind_turn (env_at i depth) with_in) b) source.now i state.old.place state.new.place result }
{
    let mut ending = first.ending;
    let mut items = Vec::new(state.alloc);
    items.push(first.bind)?;
    'names: loop {
        match bind_turn(state, source, with_in, depth)? {
            Turned::Next(item) => {
                ending = item.ending;
                items.push(item.bind)?;
            }
            Turned::Last(()) => return Ok(Binds { items, ending }),
        }
    }
}

/// What stands after the first name of a list.
#[tactic(auto, unfolding(grammar_parser_specs::specs::Stmts::binds_from))]
pub fn binds_from<H: Handler>(
    state: &mut State<H>,
    source: &Source,
    with_in: bool,
    name: Ident,
    depth: u32,
) -> Result<Binds<H::E>, ParseFault>
    requires { IsSource source.now }
    ensures { (i : Interpretation) → Reads (BindsOf i (H.shows_expr i))
        (pure.binds_from (env_at i depth) with_in (named i name)) source.now i state.old.place state.new.place result }
{
    let first = bind_from(state, source, with_in, name, depth)?;
    let binds = binds_led(state, source, with_in, first, depth)?;
    Ok(binds)
}

/// A declaration of variables, after its word.
#[tactic(auto, unfolding(grammar_parser_specs::specs::Stmts::binding_of))]
pub fn binding<H: Handler>(
    state: &mut State<H>,
    source: &Source,
    decl: Decl,
    depth: u32,
) -> Result<StmtNode<H::S>, ParseFault>
    requires { IsSource source.now }
    ensures { (i : Interpretation) → Reads (StmtOf (H.shows_stmt i))
        (pure.binding_of (env_at i depth) decl) source.now i state.old.place state.new.place result }
{
    let name = state.place.name(source)?;
    let binds = binds_from(state, source, true, name, depth)?;
    let semi = semi(&mut state.place, source, binds.ending)?;
    let node = state.handler.make_binds(decl, binds.items, semi)?;
    Ok(StmtNode {
        node,
        takes_else: false,
    })
}
