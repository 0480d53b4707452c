//! Functions that are no arrows.

ghost use Rattle.std.specs.Prelude.{◌<◌, Option};
ghost use Rattle.script_grammar.specs.Interpretation.{Interpretation, maybe_named};
ghost use Rattle.script_grammar.specs.Shows.{FuncOf};
ghost use Rattle.grammar_parser_specs.specs.Exprs as pure;
ghost use Rattle.parse_exprs.specs.Source.{IsSource};
ghost use Rattle.parse_exprs.specs.Env.{env_at};
ghost use Rattle.parse_exprs.specs.Answers.{Reads};
ghost use Rattle.parse_exprs.specs.Means.{AtomOf};

use crate::place::ParseFault;
use crate::source::Source;
use crate::state::State;
use script_grammar::handler::Handler;
use script_grammar::node::{NodeFunc, NodeFuncBody};
use script_grammar::token::{FuncForm, word};
use script_grammar::tree::Ident;

impl<H: Handler> State<H> {
    /// A function that is no arrow, from its parameters on.
    #[cycle(exprs)]
    #[tactic(auto, unfolding(grammar_parser_specs::specs::Exprs::function_of))]
    pub fn function(
        &mut self,
        source: &Source,
        form: FuncForm,
        name: Option<Ident>,
        depth: u32,
    ) -> Result<NodeFunc<H::E, H::B>, ParseFault>
        requires { IsSource source.now }
        ensures { (i : Interpretation) → Reads (FuncOf i (H.shows_expr i) (H.shows_body i))
            (pure.function_of (env_at i depth) form (maybe_named i name)) source.now i self.old.place self.new.place result }
    {
        let head = self.params_head(source, form, depth)?;
        let end = self.place.pass_body(source, form, head.is_simple(), depth)?;
        Ok(NodeFunc {
            form,
            start: head.start,
            end,
            name,
            params: head.params,
            comma: head.comma,
            bare: head.bare,
            body: NodeFuncBody::Passed,
        })
    }

    /// A function expression, after its word.
    #[cycle(exprs)]
    #[tactic(auto, unfolding(grammar_parser_specs::specs::Exprs::func_of))]
    pub(crate) fn func(&mut self, source: &Source, at: u32, depth: u32) -> Result<H::E, ParseFault>
        requires { IsSource source.now }
        ensures { (i : Interpretation) → Reads (AtomOf (H.shows_expr i))
            (pure.func_of (env_at i depth) at) source.now i self.old.place self.new.place result }
    {
        let name = self.place.maybe_name(source)?;
        let func = self.function(source, FuncForm::Function, name, depth)?;
        let node = self.handler.make_func(at, func)?;
        Ok(node)
    }
}
