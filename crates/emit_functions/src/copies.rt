//! The var names of a body that are named as parameters: each begins with the parameter's value.
ghost use Rattle.std.specs.Prelude.{◌≡◌, ℕ, List, ◌≤◌, OnOk, length};
ghost use Rattle.script_grammar.specs.Tree.{Stmts};
ghost use Rattle.stencil_data.specs.Fits.{LinksFit};
ghost use Rattle.stencil_data.specs.LinkView.{LinkView};
ghost use Rattle.stencil_data.specs.StandsFor.{text_at};
ghost use Rattle.scope_analysis.specs.DeclaredNames as names;
ghost use Rattle.emit_functions.specs.CopyCode.{CopyEmits, CopiesEmit, Passes};
ghost use Rattle.emit_functions.specs.ParamCode.{params_under};

use bytecode_buf::{CodeBuf, Op};
use emit_exprs::Site;
use emit_exprs::scenes::{reading, writing};
use emit_exprs::steps::plain;
use scope_analysis::{same_units, units_of};
use script_grammar::tree::Param;
use std::alloc::AllocError;
use stencil_data::{Binding, Chain, Text};

// Whether a parameter has the name with this atom.
fn is_param(params: &[Param], texts: &[Text], atom: u32) -> bool
    ensures { (bodies : ℕ → Stmts) → result ≡ names.has_text (names.param_names (params_under texts.now bodies params.now)) (text_at texts.now atom) }
{
    let units = units_of(texts, atom);
    for param in params {
        if same_units(units_of(texts, param.name.atom), units) {
            return true;
        }
    }
    false
}

// The first value of a var name, where a parameter has its name: it is read outside the scope of the var names, and
// written inside.
fn copy(
    out: &mut CodeBuf,
    inside: &Site,
    outside: &Site,
    params: &[Param],
    atom: u32,
) -> Result<(), AllocError>
    requires { outside.now.texts.now ≡ inside.now.texts.now }
    ensures { OnOk result ((hops : ℕ) (outer : List LinkView) → Passes outside.now.chain.now hops outer
        → CopyEmits inside.now hops outer out.old out.new params.now atom) }
{
    if is_param(params, inside.texts, atom) {
        reading(out, outside, atom)?;
        writing(out, inside, atom)?;
        plain(out, Op::Pop)?;
    }
    Ok(())
}

/// The first values of a body's var names that are named as parameters, inside the scope of these bindings. `passing` is
/// the chain there without their names.
pub fn copies(
    out: &mut CodeBuf,
    inside: &Site,
    passing: &Chain,
    params: &[Param],
    bindings: &[Binding],
) -> Result<(), AllocError>
    requires links { length passing.now ≤ 65000 }
    requires slots { LinksFit passing.now }
    ensures { OnOk result ((hops : ℕ) (outer : List LinkView) → Passes passing.now hops outer
        → CopiesEmit inside.now hops outer out.old out.new params.now bindings.now) }
{
    let outside = Site {
        alloc: inside.alloc,
        chain: passing,
        texts: inside.texts,
        inner: inside.inner,
    };
    for binding in bindings {
        copy(out, inside, &outside, params, binding.atom)?;
    }
    Ok(())
}
