//! The script of a file, read from its tokens.

ghost use Rattle.std.specs.Prelude.{ℕ};
ghost use Rattle.script_grammar.specs.Tree.{Stmts};
ghost use Rattle.parse_script.specs.Reading.{under, IsReadingBy};
ghost use Rattle.parse_script.specs.Tokens.{tokens_in, IsSound};

use crate::file_tokens::FileTokens;
use parse_bodies::whole::{Script, whole};
use parse_exprs::place::ParseFault;
use parse_exprs::source::Source;
use parse_exprs::state::State;
use script_grammar::handler::Handler;
use std::alloc::Global;

/// The nodes that the handler makes of the script that the tokens are, with one for the braced body of each function in it, or
/// the first fault of the tokens.
pub fn read_script<H: Handler + Drop>(
    alloc: Global,
    file: &FileTokens,
    handler: H,
) -> Result<Script<H::B>, ParseFault>
    requires { IsSound file.now }
    ensures { (bodies : ℕ → Stmts) → IsReadingBy H.shows_body (under file.now.texts.items bodies) (tokens_in file.now) result }
{
    let source = Source::new(&file.tokens, &file.brackets, file.known.get, file.known.set);
    let mut state = State::start(alloc, handler);
    let script = whole(&mut state, &source)?;
    Ok(script)
}
