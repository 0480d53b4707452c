//! A handler that keeps the functions, called as a parser calls it.

use parse_handlers::syntax::Syntax;
use script_grammar::handler::Handler;
use script_grammar::node::{NodeFunc, NodeFuncBody, NodeTail};
use script_grammar::token::FuncForm;
use script_grammar::tree::Ident;
use std::alloc::{AllocError, Global};
use std::test::Fail;
use stencil_data::FuncKind;

// function f() { .. }.a, with the body passed over
fn member<H: Handler>(alloc: Global, handler: &mut H) -> Result<H::E, AllocError> {
    let name = Some(Ident { atom: 7, at: 9 });
    let func = NodeFunc {
        form: FuncForm::Function,
        start: 10,
        end: 14,
        name,
        params: Vec::new(alloc),
        comma: false,
        bare: false,
        body: NodeFuncBody::Passed,
    };
    let head = handler.make_func(0, func)?;
    let mut tails = Vec::new(alloc);
    tails.push(NodeTail::Dot { atom: 3 })?;
    handler.make_chain(head, tails)
}

#[test]
fn syntax_keeps_the_functions(rt: HostRuntime) -> Result<(), Fail> {
    let node = member(rt.alloc(), &mut Syntax::new(rt.alloc()))?;
    assert!(rt; node.found.len() == 1);
    let found = &node.found[0];
    assert!(rt;
        found.extent.start == 10 && found.kind == FuncKind::Expression && found.name == Some(7)
    );
    assert!(rt; found.braced && found.simple && found.inner.is_empty());
    Ok(())
}
