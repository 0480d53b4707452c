//! A function that is all of some tokens.

ghost use Rattle.std.specs.Prelude.{◌≡◌, ◌<◌, length, map};
ghost use Rattle.script_grammar.specs.Interpretation.{Interpretation};
ghost use Rattle.script_grammar.specs.Lexeme.{lexeme_of};
ghost use Rattle.parse_exprs.specs.Source.{IsScanned};
ghost use Rattle.parse_function.specs.Alone.{IsReadAlone};

use parse_exprs::place::ParseFault;
use parse_exprs::source::Source;
use parse_exprs::state::State;
use parse_handlers::Full;
use parse_parts::functions::alone;
use parse_track::region::WellKnownAtoms;
use script_grammar::brackets::Brackets;
use script_grammar::compact::CompactToken;
use script_grammar::token::FuncForm;
use script_grammar::tree::Func;
use std::alloc::Global;

/// The function of this form that the tokens are, from its parameters on up to the End token, or a fault where they are none.
/// `known` has the atoms of `get` and `set`.
pub(crate) fn function_of(
    alloc: Global,
    tokens: &[CompactToken],
    form: FuncForm,
    known: WellKnownAtoms,
) -> Result<Func, ParseFault>
    requires scanned { IsScanned tokens.now }
    requires some { 0 < length tokens.now }
    requires no_script { form ≡ FuncForm.Script → ⊥ }
    ensures { (i : Interpretation) → IsReadAlone i (map (lexeme_of known.get known.set i.texts) tokens.now) form result }
{
    let brackets = Brackets::of(alloc, tokens)?;
    let source = Source::new(tokens, &brackets, known.get, known.set);
    let mut state = State::start(alloc, Full::new(alloc));
    let read = alone(&mut state, &source, form)?;
    let func = state.handler.func(read)?;
    Ok(func)
}
