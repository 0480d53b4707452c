//! The handler that keeps of what is read only the functions in it.

ghost use Rattle.std.specs.Prelude.{◌≡◌, ◌∷◌, [], List, Option, IfOk, option_map};
ghost use Rattle.std.specs.List.{list_all};
ghost use Rattle.script_grammar.specs.Interpretation.{Interpretation, text_of, named, maybe_named};
ghost use Rattle.script_grammar.specs.Shows.{ShowAll, ShowMaybe, ShowArgs, ShowOperand, ShowPart, ShowTail, ShowKey, ShowFunc, ShowBind};
ghost use Rattle.script_grammar.specs.Shows.{ShowInit, ShowEach, ShowClause};
ghost use Rattle.script_grammar.specs.Tree as model;
ghost use Rattle.script_grammar.specs.TreeLists as part;
ghost use Rattle.script_grammar.specs.TreeLists.{exprs_of, maybe_expr_of, items_of, maybe_args_of, operands_of, parts_of, tails_of};
ghost use Rattle.script_grammar.specs.TreeLists.{props_of, binds_of, clauses_of, stmts_of, maybe_stmt_of};
ghost use Rattle.parse_handlers.specs.Held.{has_braces, is_plain};
ghost use Rattle.parse_handlers.specs.Inner.{Inner, no_inner, kind_of, in_function};
ghost use Rattle.parse_handlers.specs.FoundOf.{FoundAs, found_of, founds_before, HoldsExpr, HoldsStmt, HoldsProp, HoldsBody, HoldsFunction};

use crate::found::{FoundFunction, SyntaxBody, SyntaxNode};
use crate::gather::{Gather, with};
use script_grammar::handler::Handler;
use script_grammar::node::{
    NodeArgs, NodeBind, NodeClause, NodeEach, NodeFunc, NodeFuncBody, NodeInit, NodeKey,
    NodeOperand, NodeParam, NodeTail, NodeTemplatePart,
};
use script_grammar::token::{Decl, FuncForm};
use script_grammar::tree::Ident;
use std::alloc::{AllocError, Global};
use stencil_data::{Extent, FuncKind};

/// A handler that keeps no tree. The node of an expression, a statement or a property is the list of the functions
/// directly in it, and so is that of a body.
#[derive(Drop)]
pub struct Syntax {
    alloc: Global,
}

fn kind_of(form: FuncForm, declared: bool) -> FuncKind
    ensures { result ≡ kind_of declared form }
{
    match form {
        FuncForm::Script => FuncKind::Declared,
        FuncForm::Function => {
            if declared {
                FuncKind::Declared
            } else {
                FuncKind::Expression
            }
        }
        FuncForm::Arrow => FuncKind::Arrow,
        FuncForm::Method => FuncKind::Method,
        FuncForm::Getter => FuncKind::Getter,
        FuncForm::Setter => FuncKind::Setter,
    }
}

fn atom_of(name: Option<Ident>) -> Option<u32>
    ensures { (i : Interpretation) → option_map (text_of i) result ≡ option_map (λ n. n.text) (maybe_named i name) }
{
    match name {
        None => None,
        Some(name) => Some(name.atom),
    }
}

/// Whether a body stands in braces.
fn is_braced(body: &NodeFuncBody<SyntaxNode, SyntaxBody>) -> bool
    ensures { result ≡ has_braces body.now }
{
    match body {
        NodeFuncBody::Braced(_) => true,
        NodeFuncBody::Short(_) => false,
        NodeFuncBody::Passed => true,
    }
}

/// Whether a parameter has neither an initializer nor a rest mark.
fn is_plain(param: &NodeParam<SyntaxNode>) -> bool
    ensures { result ≡ is_plain param.now }
{
    param.value.is_none() && !param.rest
}

/// Whether no parameter has an initializer or a rest mark.
fn is_simple(params: &[NodeParam<SyntaxNode>]) -> bool
    ensures { result ≡ list_all is_plain params.now }
{
    params.iter().all(|param| is_plain(param))
}

fn found(
    extent: Extent,
    kind: FuncKind,
    name: Option<u32>,
    braced: bool,
    simple: bool,
    inner: Vec<FoundFunction>,
) -> FoundFunction
    ensures { (i : Interpretation) → found_of i result
        ≡ record {
          start = extent.start;
          end = extent.end;
          kind = kind;
          name = option_map
              (text_of i) name;
          braced = braced;
          simple = simple;
          inner = founds_before i inner.items no_inner;
        } }
{
    FoundFunction {
        extent,
        kind,
        name,
        braced,
        simple,
        inner,
    }
}

impl Syntax {
    /// A handler that keeps its lists in this memory.
    pub fn new(alloc: Global) -> Syntax {
        Syntax { alloc }
    }

    fn nothing(&self) -> SyntaxNode
        ensures { result.found.items ≡ [] }
    {
        SyntaxNode {
            found: Vec::new(self.alloc),
        }
    }

    fn function(
        &self,
        func: NodeFunc<SyntaxNode, SyntaxBody>,
        declared: bool,
    ) -> Result<SyntaxNode, AllocError>
        ensures { (i : Interpretation) (f : model.Function) → ShowFunc i (HoldsExpr i) (HoldsBody i) func f
            → IfOk result (λ n. HoldsFunction i declared n f) }
    {
        let NodeFunc {
            form,
            start,
            end,
            name,
            params,
            comma: _,
            bare: _,
            body,
        } = func;
        let braced = is_braced(&body);
        let simple = is_simple(&params);
        let inside = with(self.nothing(), params)?;
        let inside = with(inside, body)?;
        let mut node = self.nothing();
        node.found.push(found(
            Extent { start, end },
            kind_of(form, declared),
            atom_of(name),
            braced,
            simple,
            inside.found,
        ))?;
        Ok(node)
    }
}

impl Handler for Syntax {
    type E = SyntaxNode;

    type S = SyntaxNode;

    type P = SyntaxNode;

    type B = SyntaxBody;

    ghost shows_expr = { HoldsExpr };

    ghost shows_stmt = { HoldsStmt };

    ghost shows_prop = { HoldsProp };

    ghost shows_body = { HoldsBody };

    fn make_this(&mut self, _at: u32) -> Result<SyntaxNode, AllocError>
        ensures { (i : Interpretation) → IfOk result (λ e. HoldsExpr i e (model.This _at)) }
    {
        Ok(self.nothing())
    }

    fn make_name(&mut self, _name: Ident) -> Result<SyntaxNode, AllocError>
        ensures { (i : Interpretation) → IfOk result (λ e. HoldsExpr i e (model.Name (named i _name))) }
    {
        Ok(self.nothing())
    }

    fn make_null(&mut self, _at: u32) -> Result<SyntaxNode, AllocError>
        ensures { (i : Interpretation) → IfOk result (λ e. HoldsExpr i e (model.Null _at)) }
    {
        Ok(self.nothing())
    }

    fn make_true(&mut self, _at: u32) -> Result<SyntaxNode, AllocError>
        ensures { (i : Interpretation) → IfOk result (λ e. HoldsExpr i e (model.True _at)) }
    {
        Ok(self.nothing())
    }

    fn make_false(&mut self, _at: u32) -> Result<SyntaxNode, AllocError>
        ensures { (i : Interpretation) → IfOk result (λ e. HoldsExpr i e (model.False _at)) }
    {
        Ok(self.nothing())
    }

    fn make_number(&mut self, _at: u32, _value: u64) -> Result<SyntaxNode, AllocError>
        ensures { (i : Interpretation) → IfOk result (λ e. HoldsExpr i e (model.Number _at _value)) }
    {
        Ok(self.nothing())
    }

    fn make_str(&mut self, _at: u32, _end: u32, _atom: u32) -> Result<SyntaxNode, AllocError>
        ensures { (i : Interpretation) → IfOk result (λ e. HoldsExpr i e (model.Str _at _end (text_of i _atom))) }
    {
        Ok(self.nothing())
    }

    fn make_template(
        &mut self,
        _at: u32,
        _first: u32,
        parts: Vec<NodeTemplatePart<SyntaxNode>>,
    ) -> Result<SyntaxNode, AllocError>
        ensures { (i : Interpretation) (ps : List part.Part) → ShowAll (ShowPart i (HoldsExpr i)) parts.items ps
            → IfOk result (λ e. HoldsExpr i e (model.Template _at (text_of i _first) (parts_of ps))) }
    {
        with(self.nothing(), parts)
    }

    fn make_array(
        &mut self,
        _at: u32,
        items: Vec<Option<SyntaxNode>>,
        _comma: bool,
    ) -> Result<SyntaxNode, AllocError>
        ensures { (i : Interpretation) (ts : List (Option model.Expr)) → ShowAll (ShowMaybe (HoldsExpr i)) items.items ts
            → IfOk result (λ e. HoldsExpr i e (model.Array _at (items_of ts) _comma)) }
    {
        with(self.nothing(), items)
    }

    fn make_object(
        &mut self,
        _at: u32,
        props: Vec<SyntaxNode>,
        _comma: bool,
    ) -> Result<SyntaxNode, AllocError>
        ensures { (i : Interpretation) (ps : List model.Prop) → ShowAll (HoldsProp i) props.items ps
            → IfOk result (λ e. HoldsExpr i e (model.Object _at (props_of ps) _comma)) }
    {
        with(self.nothing(), props)
    }

    fn make_func(
        &mut self,
        _at: u32,
        func: NodeFunc<SyntaxNode, SyntaxBody>,
    ) -> Result<SyntaxNode, AllocError>
        ensures { (i : Interpretation) (f : model.Function) → ShowFunc i (HoldsExpr i) (HoldsBody i) func f
            → IfOk result (λ e. HoldsExpr i e (model.Func _at f)) }
    {
        self.function(func, false)
    }

    fn make_paren(&mut self, _at: u32, inner: SyntaxNode) -> Result<SyntaxNode, AllocError>
        ensures { (i : Interpretation) (t : model.Expr) → HoldsExpr i inner t
            → IfOk result (λ e. HoldsExpr i e (model.Paren _at t)) }
    {
        Ok(inner)
    }

    fn make_chain(
        &mut self,
        head: SyntaxNode,
        tails: Vec<NodeTail<SyntaxNode>>,
    ) -> Result<SyntaxNode, AllocError>
        ensures { (i : Interpretation) (t : model.Expr) (ts : List model.Tail) → HoldsExpr i head t
            → ShowAll (ShowTail i (HoldsExpr i)) tails.items ts
            → IfOk result (λ e. HoldsExpr i e (model.Chain t (tails_of ts))) }
    {
        with(head, tails)
    }

    fn make_new(
        &mut self,
        _at: u32,
        callee: SyntaxNode,
        args: Option<NodeArgs<SyntaxNode>>,
    ) -> Result<SyntaxNode, AllocError>
        ensures { (i : Interpretation) (t : model.Expr) (a : Option part.Args) → HoldsExpr i callee t → ShowMaybe (ShowArgs (HoldsExpr i)) args a
            → IfOk result (λ e. HoldsExpr i e (model.New _at t (maybe_args_of a))) }
    {
        with(callee, args)
    }

    fn make_unary(
        &mut self,
        _at: u32,
        _op: u8,
        of: SyntaxNode,
        _is_word: bool,
    ) -> Result<SyntaxNode, AllocError>
        ensures { (i : Interpretation) (t : model.Expr) → HoldsExpr i of t
            → IfOk result (λ e. HoldsExpr i e (model.Unary _at _op t _is_word)) }
    {
        Ok(of)
    }

    fn make_update(
        &mut self,
        _at: u32,
        _op: u8,
        _prefix: bool,
        of: SyntaxNode,
    ) -> Result<SyntaxNode, AllocError>
        ensures { (i : Interpretation) (t : model.Expr) → HoldsExpr i of t
            → IfOk result (λ e. HoldsExpr i e (model.Update _at _op _prefix t)) }
    {
        Ok(of)
    }

    fn make_binary(
        &mut self,
        first: SyntaxNode,
        rest: Vec<NodeOperand<SyntaxNode>>,
    ) -> Result<SyntaxNode, AllocError>
        ensures { (i : Interpretation) (t : model.Expr) (os : List part.Operand) → HoldsExpr i first t
            → ShowAll (ShowOperand (HoldsExpr i)) rest.items os
            → IfOk result (λ e. HoldsExpr i e (model.Binary t (operands_of os))) }
    {
        with(first, rest)
    }

    fn make_cond(
        &mut self,
        test: SyntaxNode,
        yes: SyntaxNode,
        no: SyntaxNode,
    ) -> Result<SyntaxNode, AllocError>
        ensures { (i : Interpretation) (t u v : model.Expr) → HoldsExpr i test t → HoldsExpr i yes u → HoldsExpr i no v
            → IfOk result (λ e. HoldsExpr i e (model.Cond t u v)) }
    {
        let node = with(test, yes)?;
        with(node, no)
    }

    fn make_assign(
        &mut self,
        _op: u8,
        target: SyntaxNode,
        value: SyntaxNode,
    ) -> Result<SyntaxNode, AllocError>
        ensures { (i : Interpretation) (t v : model.Expr) → HoldsExpr i target t → HoldsExpr i value v
            → IfOk result (λ e. HoldsExpr i e (model.Assign _op t v)) }
    {
        with(target, value)
    }

    fn make_comma(&mut self, items: Vec<SyntaxNode>) -> Result<SyntaxNode, AllocError>
        ensures { (i : Interpretation) (ts : List model.Expr) → ShowAll (HoldsExpr i) items.items ts
            → IfOk result (λ e. HoldsExpr i e (model.Comma (exprs_of ts))) }
    {
        with(self.nothing(), items)
    }

    fn make_short(&mut self, _name: Ident) -> Result<SyntaxNode, AllocError>
        ensures { (i : Interpretation) → IfOk result (λ p. HoldsProp i p (model.Short (named i _name))) }
    {
        Ok(self.nothing())
    }

    fn make_pair(
        &mut self,
        key: NodeKey<SyntaxNode>,
        value: SyntaxNode,
    ) -> Result<SyntaxNode, AllocError>
        ensures { (i : Interpretation) (k : model.Key) (v : model.Expr) → ShowKey i (HoldsExpr i) key k → HoldsExpr i value v
            → IfOk result (λ p. HoldsProp i p (model.Pair k v)) }
    {
        let node = with(self.nothing(), key)?;
        with(node, value)
    }

    fn make_method(
        &mut self,
        key: NodeKey<SyntaxNode>,
        func: NodeFunc<SyntaxNode, SyntaxBody>,
    ) -> Result<SyntaxNode, AllocError>
        ensures { (i : Interpretation) (k : model.Key) (f : model.Function) → ShowKey i (HoldsExpr i) key k
            → ShowFunc i (HoldsExpr i) (HoldsBody i) func f
            → IfOk result (λ p. HoldsProp i p (model.Method k f)) }
    {
        let node = with(self.nothing(), key)?;
        with(node, self.function(func, false)?)
    }

    fn make_get(
        &mut self,
        key: NodeKey<SyntaxNode>,
        func: NodeFunc<SyntaxNode, SyntaxBody>,
    ) -> Result<SyntaxNode, AllocError>
        ensures { (i : Interpretation) (k : model.Key) (f : model.Function) → ShowKey i (HoldsExpr i) key k
            → ShowFunc i (HoldsExpr i) (HoldsBody i) func f
            → IfOk result (λ p. HoldsProp i p (model.Get k f)) }
    {
        let node = with(self.nothing(), key)?;
        with(node, self.function(func, false)?)
    }

    fn make_set(
        &mut self,
        key: NodeKey<SyntaxNode>,
        func: NodeFunc<SyntaxNode, SyntaxBody>,
    ) -> Result<SyntaxNode, AllocError>
        ensures { (i : Interpretation) (k : model.Key) (f : model.Function) → ShowKey i (HoldsExpr i) key k
            → ShowFunc i (HoldsExpr i) (HoldsBody i) func f
            → IfOk result (λ p. HoldsProp i p (model.Set k f)) }
    {
        let node = with(self.nothing(), key)?;
        with(node, self.function(func, false)?)
    }

    fn make_block(&mut self, items: Vec<SyntaxNode>) -> Result<SyntaxNode, AllocError>
        ensures { (i : Interpretation) (ss : List model.Stmt) → ShowAll (HoldsStmt i) items.items ss
            → IfOk result (λ s. HoldsStmt i s (model.Block (stmts_of ss))) }
    {
        with(self.nothing(), items)
    }

    fn make_empty(&mut self) -> Result<SyntaxNode, AllocError>
        ensures { (i : Interpretation) → IfOk result (λ s. HoldsStmt i s model.Empty) }
    {
        Ok(self.nothing())
    }

    fn make_debugger(&mut self, _semi: bool) -> Result<SyntaxNode, AllocError>
        ensures { (i : Interpretation) → IfOk result (λ s. HoldsStmt i s (model.Debugger _semi)) }
    {
        Ok(self.nothing())
    }

    fn make_binds(
        &mut self,
        _decl: Decl,
        binds: Vec<NodeBind<SyntaxNode>>,
        _semi: bool,
    ) -> Result<SyntaxNode, AllocError>
        ensures { (i : Interpretation) (bs : List part.Bind) → ShowAll (ShowBind i (HoldsExpr i)) binds.items bs
            → IfOk result (λ s. HoldsStmt i s (model.Binding _decl (binds_of bs) _semi)) }
    {
        with(self.nothing(), binds)
    }

    fn make_value(&mut self, value: SyntaxNode, _semi: bool) -> Result<SyntaxNode, AllocError>
        ensures { (i : Interpretation) (t : model.Expr) → HoldsExpr i value t
            → IfOk result (λ s. HoldsStmt i s (model.Value t _semi)) }
    {
        Ok(value)
    }

    fn make_if(
        &mut self,
        test: SyntaxNode,
        yes: SyntaxNode,
        no: Option<SyntaxNode>,
    ) -> Result<SyntaxNode, AllocError>
        ensures { (i : Interpretation) (t : model.Expr) (u : model.Stmt) (v : Option model.Stmt) → HoldsExpr i test t → HoldsStmt i yes u
            → ShowMaybe (HoldsStmt i) no v
            → IfOk result (λ s. HoldsStmt i s (model.If t u (maybe_stmt_of v))) }
    {
        let node = with(test, yes)?;
        with(node, no)
    }

    fn make_do(
        &mut self,
        body: SyntaxNode,
        test: SyntaxNode,
        _semi: bool,
    ) -> Result<SyntaxNode, AllocError>
        ensures { (i : Interpretation) (b : model.Stmt) (t : model.Expr) → HoldsStmt i body b → HoldsExpr i test t
            → IfOk result (λ s. HoldsStmt i s (model.Do b t _semi)) }
    {
        with(body, test)
    }

    fn make_while(&mut self, test: SyntaxNode, body: SyntaxNode) -> Result<SyntaxNode, AllocError>
        ensures { (i : Interpretation) (t : model.Expr) (b : model.Stmt) → HoldsExpr i test t → HoldsStmt i body b
            → IfOk result (λ s. HoldsStmt i s (model.While t b)) }
    {
        with(test, body)
    }

    fn make_for(
        &mut self,
        init: NodeInit<SyntaxNode>,
        test: Option<SyntaxNode>,
        update: Option<SyntaxNode>,
        body: SyntaxNode,
    ) -> Result<SyntaxNode, AllocError>
        ensures { (i : Interpretation) (n : model.Init) (t u : Option model.Expr) (b : model.Stmt) → ShowInit i (HoldsExpr i) init n
            → ShowMaybe (HoldsExpr i) test t → ShowMaybe (HoldsExpr i) update u → HoldsStmt i body b
            → IfOk result (λ s. HoldsStmt i s (model.For n (maybe_expr_of t) (maybe_expr_of u) b)) }
    {
        let node = with(self.nothing(), init)?;
        let node = with(node, test)?;
        let node = with(node, update)?;
        with(node, body)
    }

    fn make_forin(
        &mut self,
        each: NodeEach<SyntaxNode>,
        over: SyntaxNode,
        body: SyntaxNode,
    ) -> Result<SyntaxNode, AllocError>
        ensures { (i : Interpretation) (n : model.Each) (t : model.Expr) (b : model.Stmt) → ShowEach i (HoldsExpr i) each n
            → HoldsExpr i over t → HoldsStmt i body b
            → IfOk result (λ s. HoldsStmt i s (model.ForIn n t b)) }
    {
        let node = with(self.nothing(), each)?;
        let node = with(node, over)?;
        with(node, body)
    }

    fn make_continue(
        &mut self,
        _at: u32,
        _label: Option<Ident>,
        _semi: bool,
    ) -> Result<SyntaxNode, AllocError>
        ensures { (i : Interpretation) → IfOk result (λ s. HoldsStmt i s (model.Continue _at (maybe_named i _label) _semi)) }
    {
        Ok(self.nothing())
    }

    fn make_break(
        &mut self,
        _at: u32,
        _label: Option<Ident>,
        _semi: bool,
    ) -> Result<SyntaxNode, AllocError>
        ensures { (i : Interpretation) → IfOk result (λ s. HoldsStmt i s (model.Break _at (maybe_named i _label) _semi)) }
    {
        Ok(self.nothing())
    }

    fn make_return(
        &mut self,
        value: Option<SyntaxNode>,
        _semi: bool,
    ) -> Result<SyntaxNode, AllocError>
        ensures { (i : Interpretation) (t : Option model.Expr) → ShowMaybe (HoldsExpr i) value t
            → IfOk result (λ s. HoldsStmt i s (model.Return (maybe_expr_of t) _semi)) }
    {
        with(self.nothing(), value)
    }

    fn make_throw(&mut self, value: SyntaxNode, _semi: bool) -> Result<SyntaxNode, AllocError>
        ensures { (i : Interpretation) (t : model.Expr) → HoldsExpr i value t
            → IfOk result (λ s. HoldsStmt i s (model.Throw t _semi)) }
    {
        Ok(value)
    }

    fn make_switch(
        &mut self,
        of: SyntaxNode,
        clauses: Vec<NodeClause<SyntaxNode, SyntaxNode>>,
    ) -> Result<SyntaxNode, AllocError>
        ensures { (i : Interpretation) (t : model.Expr) (cs : List part.Clause) → HoldsExpr i of t
            → ShowAll (ShowClause (HoldsExpr i) (HoldsStmt i)) clauses.items cs
            → IfOk result (λ s. HoldsStmt i s (model.Switch t (clauses_of cs))) }
    {
        with(of, clauses)
    }

    fn make_label(&mut self, _name: Ident, body: SyntaxNode) -> Result<SyntaxNode, AllocError>
        ensures { (i : Interpretation) (b : model.Stmt) → HoldsStmt i body b
            → IfOk result (λ s. HoldsStmt i s (model.Label (named i _name) b)) }
    {
        Ok(body)
    }

    fn make_try(
        &mut self,
        body: Vec<SyntaxNode>,
        _param: Option<Ident>,
        handler: Vec<SyntaxNode>,
    ) -> Result<SyntaxNode, AllocError>
        ensures { (i : Interpretation) (bs hs : List model.Stmt) → ShowAll (HoldsStmt i) body.items bs → ShowAll (HoldsStmt i) handler.items hs
            → IfOk result (λ s. HoldsStmt i s (model.Try (stmts_of bs) (maybe_named i _param) (stmts_of hs))) }
    {
        let node = with(self.nothing(), body)?;
        with(node, handler)
    }

    fn make_declared(
        &mut self,
        func: NodeFunc<SyntaxNode, SyntaxBody>,
    ) -> Result<SyntaxNode, AllocError>
        ensures { (i : Interpretation) (f : model.Function) → ShowFunc i (HoldsExpr i) (HoldsBody i) func f
            → IfOk result (λ s. HoldsStmt i s (model.Declared f)) }
    {
        self.function(func, true)
    }

    fn body(&mut self, items: Vec<SyntaxNode>) -> Result<SyntaxBody, AllocError>
        ensures { (i : Interpretation) (ss : List model.Stmt) → ShowAll (HoldsStmt i) items.items ss
            → IfOk result (λ b. HoldsBody i b (stmts_of ss)) }
    {
        let SyntaxNode { found } = with(self.nothing(), items)?;
        Ok(SyntaxBody { found })
    }
}
