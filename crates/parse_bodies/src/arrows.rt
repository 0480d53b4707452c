//! Arrows that are read alone, where only an arrow is asked for.

ghost use Rattle.std.specs.Prelude.{◌≡◌, None};
ghost use Rattle.script_grammar.specs.Interpretation.{Interpretation};
ghost use Rattle.script_grammar.specs.Shows.{ShowParam, ParamOf, FuncOf};
ghost use Rattle.script_grammar.specs.TreeLists as part;
ghost use Rattle.grammar_parser_specs.specs.Parser.{led};
ghost use Rattle.grammar_parser_specs.specs.Stmts as pure;
ghost use Rattle.parse_exprs.specs.Answers.{Reads};
ghost use Rattle.parse_exprs.specs.Env.{env_at};
ghost use Rattle.parse_exprs.specs.Means.{TurnOf, ItemsOf, ParamsEndOf, ParamsOf};
ghost use Rattle.parse_exprs.specs.Source.{IsSource};

use parse_exprs::kinds;
use parse_exprs::part::{Items, Params, ParamsEnd, Turned};
use parse_exprs::place::ParseFault;
use parse_exprs::source::Source;
use parse_exprs::state::State;
use script_grammar::handler::Handler;
use script_grammar::node::{NodeFunc, NodeParam};
use script_grammar::token::{FuncForm, mark};

/// A parameter or a rest parameter.
#[tactic(auto, unfolding(grammar_parser_specs::specs::Stmts::strict_param))]
fn strict_param<H: Handler>(
    state: &mut State<H>,
    source: &Source,
    depth: u32,
) -> Result<Turned<NodeParam<H::E>, ParamsEnd>, ParseFault>
    requires { IsSource source.now }
    ensures { (i : Interpretation) → Reads (TurnOf (ParamOf i (H.shows_expr i)) (ParamsEndOf i))
        (pure.strict_param (env_at i depth)) source.now i state.old.place state.new.place result }
{
    if state.place.is_mark(source, mark::ELLIPSIS) {
        let name = state.rest_call(source, depth)?;
        return Ok(Turned::Last(ParamsEnd::Rest(name)));
    }
    if !state.place.is_name(source) {
        return Err(ParseFault::Unexpected {
            token: state.place.at,
        });
    }
    let param = state.param_call(source, depth)?;
    Ok(Turned::Next(param))
}

/// A parameter after a comma, or none where the parenthesis closes.
#[tactic(auto, unfolding(grammar_parser_specs::specs::Stmts::strict_next))]
fn strict_next<H: Handler>(
    state: &mut State<H>,
    source: &Source,
    depth: u32,
) -> Result<Turned<NodeParam<H::E>, ParamsEnd>, ParseFault>
    requires { IsSource source.now }
    ensures { (i : Interpretation) → Reads (TurnOf (ParamOf i (H.shows_expr i)) (ParamsEndOf i))
        (pure.strict_next (env_at i depth)) source.now i state.old.place state.new.place result }
{
    if state.place.is_mark(source, mark::CLOSE_PAREN) {
        return Ok(Turned::Last(ParamsEnd::Trailing));
    }
    strict_param(state, source, depth)
}

/// A comma and a parameter, where they stand here.
#[tactic(auto, unfolding(grammar_parser_specs::specs::Stmts::strict_turn))]
fn strict_turn<H: Handler>(
    state: &mut State<H>,
    source: &Source,
    depth: u32,
) -> Result<Turned<NodeParam<H::E>, ParamsEnd>, ParseFault>
    requires { IsSource source.now }
    ensures { (i : Interpretation) → Reads (TurnOf (ParamOf i (H.shows_expr i)) (ParamsEndOf i))
        (pure.strict_turn (env_at i depth)) source.now i state.old.place state.new.place result }
{
    if !state.place.is_mark(source, mark::COMMA) {
        return Ok(Turned::Last(ParamsEnd::Plain));
    }
    state.place.step(source);
    strict_next(state, source, depth)
}

/// The parameters after the first.
fn strict_led<H: Handler>(
    state: &mut State<H>,
    source: &Source,
    first: NodeParam<H::E>,
    depth: u32,
) -> Result<Items<NodeParam<H::E>, ParamsEnd>, ParseFault>
    requires { IsSource source.now }
    ensures { (i : Interpretation) → (t : part.Param) → ShowParam i (H.shows_expr i) first t
        → Reads (ItemsOf (ShowParam i (H.shows_expr i)) (ParamsEndOf i))
        (led (pure.strict_turn (env_at i depth)) t) source.now i state.old.place state.new.place result }
{
    let mut items = Vec::new(state.alloc);
    items.push(first)?;
    loop {
        match strict_turn(state, source, depth)? {
            Turned::Next(item) => items.push(item)?,
            Turned::Last(last) => return Ok(Items { items, last }),
        }
    }
}

/// The parameters in parentheses, after the one that opens.
#[tactic(auto, unfolding(grammar_parser_specs::specs::Stmts::strict_params))]
fn strict_params<H: Handler>(
    state: &mut State<H>,
    source: &Source,
    depth: u32,
) -> Result<Items<NodeParam<H::E>, ParamsEnd>, ParseFault>
    requires { IsSource source.now }
    ensures { (i : Interpretation) → Reads (ItemsOf (ShowParam i (H.shows_expr i)) (ParamsEndOf i))
        (pure.strict_params (env_at i depth)) source.now i state.old.place state.new.place result }
{
    if state.place.is_mark(source, mark::CLOSE_PAREN) {
        return Ok(Items {
            items: Vec::new(state.alloc),
            last: ParamsEnd::Plain,
        });
    }
    match strict_param(state, source, depth)? {
        Turned::Next(first) => strict_led(state, source, first, depth),
        Turned::Last(last) => Ok(Items {
            items: Vec::new(state.alloc),
            last,
        }),
    }
}

/// The same with the parenthesis that closes.
#[tactic(auto, unfolding(grammar_parser_specs::specs::Stmts::strict_listed))]
fn strict_listed<H: Handler>(
    state: &mut State<H>,
    source: &Source,
    start: u32,
    depth: u32,
) -> Result<Params<H::E>, ParseFault>
    requires { IsSource source.now }
    ensures { (i : Interpretation) → Reads (ParamsOf i (H.shows_expr i))
        (pure.strict_listed (env_at i depth) start) source.now i state.old.place state.new.place result }
{
    let read = strict_params(state, source, depth)?;
    state.place.expect(source, mark::CLOSE_PAREN)?;
    State::<H>::ended(start, read)
}

/// What stands before the mark of an arrow.
#[tactic(auto, unfolding(grammar_parser_specs::specs::Stmts::strict_head))]
fn strict_head<H: Handler>(
    state: &mut State<H>,
    source: &Source,
    depth: u32,
) -> Result<Params<H::E>, ParseFault>
    requires { IsSource source.now }
    ensures { (i : Interpretation) → Reads (ParamsOf i (H.shows_expr i))
        (pure.strict_head (env_at i depth)) source.now i state.old.place state.new.place result }
{
    let token = state.place.token(source);
    if kinds::is_name(token.kind) {
        state.place.step(source);
        return state.bare(token);
    }
    if kinds::is_mark(token.kind, mark::OPEN_PAREN) {
        state.place.step(source);
        return strict_listed(state, source, token.start, depth);
    }
    Err(ParseFault::Unexpected {
        token: state.place.at,
    })
}

/// An arrow. Its body, where it has braces, is passed over.
#[tactic(auto, unfolding(grammar_parser_specs::specs::Stmts::arrow_alone))]
pub fn arrow_alone<H: Handler>(
    state: &mut State<H>,
    source: &Source,
    depth: u32,
) -> Result<NodeFunc<H::E, H::B>, ParseFault>
    requires { IsSource source.now }
    ensures { (i : Interpretation) → Reads (FuncOf i (H.shows_expr i) (H.shows_body i))
        (pure.arrow_alone (env_at i depth)) source.now i state.old.place state.new.place result }
{
    let head = strict_head(state, source, depth)?;
    state.place.arrow_mark(source)?;
    let body = state.arrow_body(source, true, head.start, head.is_simple(), depth)?;
    Ok(NodeFunc {
        form: FuncForm::Arrow,
        start: head.start,
        end: body.end,
        name: None,
        params: head.params,
        comma: head.comma,
        bare: head.bare,
        body: body.body,
    })
}
