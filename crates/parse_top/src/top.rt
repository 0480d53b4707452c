//! The top of a script, read from the tokens of its file.

ghost use Rattle.std.specs.Prelude.{◌≡◌, ℕ, [], IfOk};
ghost use Rattle.script_grammar.specs.Interpretation.{Interpretation};
ghost use Rattle.script_grammar.specs.Tree.{Stmts};
ghost use Rattle.parse_exprs.specs.Source.{IsSource, lexemes};
ghost use Rattle.parse_script.specs.Reading.{under};
ghost use Rattle.parse_script.specs.Tokens.{tokens_in, IsSound};
ghost use Rattle.parse_top.specs.Top.{AreAScript, IsTopOf, ShowsTop};

use parse_bodies::scripts::script;
use parse_exprs::place::ParseFault;
use parse_exprs::source::Source;
use parse_exprs::state::State;
use parse_script::FileTokens;
use script_grammar::handler::Handler;
use std::alloc::{AllocError, Global};

/// The node of the statements of the script that the tokens are.
fn outermost<H: Handler>(state: &mut State<H>, source: &Source) -> Result<H::B, ParseFault>
    requires source { IsSource source.now }
    requires start { state.old.place.at ≡ 0 }
    requires none { state.old.place.pending.items ≡ [] }
    ensures { (i : Interpretation) → IsTopOf H.shows_body i (lexemes source.now i) result }
{
    let top = script(state, source)?;
    Ok(top)
}

/// The same of the tokens of a file.
fn top_in<H: Handler + Drop>(
    alloc: Global,
    file: &FileTokens,
    handler: H,
) -> Result<H::B, ParseFault>
    requires { IsSound file.now }
    ensures { (bodies : ℕ → Stmts) → IsTopOf H.shows_body (under file.now.texts.items bodies) (tokens_in file.now) result }
{
    let source = Source::new(&file.tokens, &file.brackets, file.known.get, file.known.set);
    let mut state = State::start(alloc, handler);
    let top = outermost(&mut state, &source)?;
    Ok(top)
}

/// The node that the handler makes of the statements of the script that the tokens are. The bodies of functions in braces are
/// passed over, as tokens whose brackets match.
///
/// Time is linear in the tokens; memory is that of the handler's nodes, and of a few words for each body that is passed over.
pub fn read_top<H: Handler + Drop>(
    alloc: Global,
    file: &FileTokens,
    handler: H,
) -> Result<H::B, AllocError>
    requires sound { IsSound file.now }
    requires script { AreAScript (tokens_in file.now) }
    ensures { IfOk result (λ top. ShowsTop H.shows_body file.now.texts.items (tokens_in file.now) top) }
{
    match top_in(alloc, file, handler) {
        Ok(top) => Ok(top),
        Err(ParseFault::NoMemory) => Err(AllocError),
        Err(ParseFault::Unexpected { .. }) => unreachable!(),
        Err(ParseFault::TooDeep { .. }) => unreachable!(),
    }
}
