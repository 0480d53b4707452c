//! The handler that keeps the trees.

ghost use Rattle.std.specs.Prelude.{◌≡◌, List, Option, IfOk};
ghost use Rattle.script_grammar.specs.Interpretation.{Interpretation, text_of, named, maybe_named};
ghost use Rattle.script_grammar.specs.Shows.{ShowAll, ShowMaybe, ShowArgs, ShowOperand, ShowPart, ShowTail, ShowKey, ShowFunc, ShowBind};
ghost use Rattle.script_grammar.specs.Shows.{ShowInit, ShowEach, ShowClause};
ghost use Rattle.script_grammar.specs.Tree as model;
ghost use Rattle.script_grammar.specs.TreeLists as part;
ghost use Rattle.script_grammar.specs.TreeLists.{exprs_of, maybe_expr_of, items_of, maybe_args_of, operands_of, parts_of, tails_of};
ghost use Rattle.script_grammar.specs.TreeLists.{props_of, binds_of, clauses_of, stmts_of, maybe_stmt_of};
ghost use Rattle.script_grammar.specs.TreeOf.{expr_of, stmt_of, prop_of, func_of};
ghost use Rattle.parse_handlers.specs.Kept.{IsExpr, IsStmt, IsProp, IsBody, kept_func};

use crate::parts;
use script_grammar::build;
use script_grammar::handler::Handler;
use script_grammar::node::{
    NodeArgs, NodeBind, NodeClause, NodeEach, NodeFunc, NodeInit, NodeKey, NodeOperand, NodeTail,
    NodeTemplatePart,
};
use script_grammar::token::Decl;
use script_grammar::tree::{Expr, Func, Ident, Prop, Stmt};
use std::alloc::{AllocError, Global};

/// A handler whose nodes are the trees. A body's node is the list of its statements.
#[derive(Drop)]
pub struct Full {
    alloc: Global,
}

impl Full {
    /// A handler that keeps its trees in this memory.
    pub fn new(alloc: Global) -> Full {
        Full { alloc }
    }

    /// The tree of a function with these fields.
    pub fn func(&mut self, func: NodeFunc<Expr, Vec<Stmt>>) -> Result<Func, AllocError>
        ensures { IfOk result (λ f. (i : Interpretation) → func_of i f ≡ kept_func i func) }
    {
        parts::func(self.alloc, func)
    }
}

impl Handler for Full {
    type E = Expr;

    type S = Stmt;

    type P = Prop;

    type B = Vec<Stmt>;

    ghost shows_expr = { IsExpr };

    ghost shows_stmt = { IsStmt };

    ghost shows_prop = { IsProp };

    ghost shows_body = { IsBody };

    fn make_this(&mut self, at: u32) -> Result<Expr, AllocError> {
        Ok(build::this(at))
    }

    fn make_name(&mut self, name: Ident) -> Result<Expr, AllocError> {
        Ok(build::name(name))
    }

    fn make_null(&mut self, at: u32) -> Result<Expr, AllocError> {
        Ok(build::null(at))
    }

    fn make_true(&mut self, at: u32) -> Result<Expr, AllocError> {
        Ok(build::truth(at))
    }

    fn make_false(&mut self, at: u32) -> Result<Expr, AllocError> {
        Ok(build::falsehood(at))
    }

    fn make_number(&mut self, at: u32, value: u64) -> Result<Expr, AllocError> {
        Ok(build::number(at, value))
    }

    fn make_str(&mut self, at: u32, end: u32, atom: u32) -> Result<Expr, AllocError> {
        Ok(build::string(at, end, atom))
    }

    fn make_template(
        &mut self,
        at: u32,
        first: u32,
        parts: Vec<NodeTemplatePart<Expr>>,
    ) -> Result<Expr, AllocError>
        ensures { (i : Interpretation) (ps : List part.Part) → ShowAll (ShowPart i (IsExpr i)) parts.items ps
            → IfOk result (λ e. IsExpr i e (model.Template at (text_of i first) (parts_of ps))) }
    {
        let parts = parts::template_parts(self.alloc, parts)?;
        Ok(build::template(at, first, parts))
    }

    fn make_array(
        &mut self,
        at: u32,
        items: Vec<Option<Expr>>,
        comma: bool,
    ) -> Result<Expr, AllocError>
        ensures { (i : Interpretation) (ts : List (Option model.Expr)) → ShowAll (ShowMaybe (IsExpr i)) items.items ts
            → IfOk result (λ e. IsExpr i e (model.Array at (items_of ts) comma)) }
    {
        Ok(build::array(at, items, comma))
    }

    fn make_object(&mut self, at: u32, props: Vec<Prop>, comma: bool) -> Result<Expr, AllocError>
        ensures { (i : Interpretation) (ps : List model.Prop) → ShowAll (IsProp i) props.items ps
            → IfOk result (λ e. IsExpr i e (model.Object at (props_of ps) comma)) }
    {
        Ok(build::object(at, props, comma))
    }

    fn make_func(&mut self, at: u32, func: NodeFunc<Expr, Vec<Stmt>>) -> Result<Expr, AllocError>
        ensures { (i : Interpretation) (f : model.Function) → ShowFunc i (IsExpr i) (IsBody i) func f
            → IfOk result (λ e. IsExpr i e (model.Func at f)) }
    {
        let func = parts::func(self.alloc, func)?;
        build::function(self.alloc, at, func)
    }

    fn make_paren(&mut self, at: u32, inner: Expr) -> Result<Expr, AllocError> {
        build::paren(self.alloc, at, inner)
    }

    fn make_chain(&mut self, head: Expr, tails: Vec<NodeTail<Expr>>) -> Result<Expr, AllocError>
        ensures { (i : Interpretation) (t : model.Expr) (ts : List model.Tail) → IsExpr i head t → ShowAll (ShowTail i (IsExpr i)) tails.items ts
            → IfOk result (λ e. IsExpr i e (model.Chain t (tails_of ts))) }
    {
        let tails = parts::tails(self.alloc, tails)?;
        build::chain(self.alloc, head, tails)
    }

    fn make_new(
        &mut self,
        at: u32,
        callee: Expr,
        args: Option<NodeArgs<Expr>>,
    ) -> Result<Expr, AllocError>
        ensures { (i : Interpretation) (t : model.Expr) (a : Option part.Args) → IsExpr i callee t → ShowMaybe (ShowArgs (IsExpr i)) args a
            → IfOk result (λ e. IsExpr i e (model.New at t (maybe_args_of a))) }
    {
        build::new_expr(self.alloc, at, callee, parts::maybe_args(args))
    }

    fn make_unary(&mut self, at: u32, op: u8, of: Expr, is_word: bool) -> Result<Expr, AllocError> {
        build::unary(self.alloc, at, op, of, is_word)
    }

    fn make_update(&mut self, at: u32, op: u8, prefix: bool, of: Expr) -> Result<Expr, AllocError> {
        build::update(self.alloc, at, op, prefix, of)
    }

    fn make_binary(&mut self, first: Expr, rest: Vec<NodeOperand<Expr>>) -> Result<Expr, AllocError>
        ensures { (i : Interpretation) (t : model.Expr) (os : List part.Operand) → IsExpr i first t → ShowAll (ShowOperand (IsExpr i)) rest.items os
            → IfOk result (λ e. IsExpr i e (model.Binary t (operands_of os))) }
    {
        let rest = parts::operands(self.alloc, rest)?;
        build::binary(self.alloc, first, rest)
    }

    fn make_cond(&mut self, test: Expr, yes: Expr, no: Expr) -> Result<Expr, AllocError> {
        build::cond(self.alloc, test, yes, no)
    }

    fn make_assign(&mut self, op: u8, target: Expr, value: Expr) -> Result<Expr, AllocError> {
        build::assign(self.alloc, op, target, value)
    }

    fn make_comma(&mut self, items: Vec<Expr>) -> Result<Expr, AllocError>
        ensures { (i : Interpretation) (ts : List model.Expr) → ShowAll (IsExpr i) items.items ts
            → IfOk result (λ e. IsExpr i e (model.Comma (exprs_of ts))) }
    {
        Ok(build::comma(items))
    }

    fn make_short(&mut self, name: Ident) -> Result<Prop, AllocError> {
        Ok(build::short(name))
    }

    fn make_pair(&mut self, key: NodeKey<Expr>, value: Expr) -> Result<Prop, AllocError>
        ensures { (i : Interpretation) (k : model.Key) (v : model.Expr) → ShowKey i (IsExpr i) key k → IsExpr i value v
            → IfOk result (λ p. IsProp i p (model.Pair k v)) }
    {
        Ok(build::pair(parts::key(key), value))
    }

    fn make_method(
        &mut self,
        key: NodeKey<Expr>,
        func: NodeFunc<Expr, Vec<Stmt>>,
    ) -> Result<Prop, AllocError>
        ensures { (i : Interpretation) (k : model.Key) (f : model.Function) → ShowKey i (IsExpr i) key k → ShowFunc i (IsExpr i) (IsBody i) func f
            → IfOk result (λ p. IsProp i p (model.Method k f)) }
    {
        let func = parts::func(self.alloc, func)?;
        build::method(self.alloc, parts::key(key), func)
    }

    fn make_get(
        &mut self,
        key: NodeKey<Expr>,
        func: NodeFunc<Expr, Vec<Stmt>>,
    ) -> Result<Prop, AllocError>
        ensures { (i : Interpretation) (k : model.Key) (f : model.Function) → ShowKey i (IsExpr i) key k → ShowFunc i (IsExpr i) (IsBody i) func f
            → IfOk result (λ p. IsProp i p (model.Get k f)) }
    {
        let func = parts::func(self.alloc, func)?;
        build::getter(self.alloc, parts::key(key), func)
    }

    fn make_set(
        &mut self,
        key: NodeKey<Expr>,
        func: NodeFunc<Expr, Vec<Stmt>>,
    ) -> Result<Prop, AllocError>
        ensures { (i : Interpretation) (k : model.Key) (f : model.Function) → ShowKey i (IsExpr i) key k → ShowFunc i (IsExpr i) (IsBody i) func f
            → IfOk result (λ p. IsProp i p (model.Set k f)) }
    {
        let func = parts::func(self.alloc, func)?;
        build::setter(self.alloc, parts::key(key), func)
    }

    fn make_block(&mut self, items: Vec<Stmt>) -> Result<Stmt, AllocError>
        ensures { (i : Interpretation) (ss : List model.Stmt) → ShowAll (IsStmt i) items.items ss
            → IfOk result (λ s. IsStmt i s (model.Block (stmts_of ss))) }
    {
        Ok(build::block(items))
    }

    fn make_empty(&mut self) -> Result<Stmt, AllocError> {
        Ok(build::empty())
    }

    fn make_debugger(&mut self, semi: bool) -> Result<Stmt, AllocError> {
        Ok(build::debugger(semi))
    }

    fn make_binds(
        &mut self,
        decl: Decl,
        binds: Vec<NodeBind<Expr>>,
        semi: bool,
    ) -> Result<Stmt, AllocError>
        ensures { (i : Interpretation) (bs : List part.Bind) → ShowAll (ShowBind i (IsExpr i)) binds.items bs
            → IfOk result (λ s. IsStmt i s (model.Binding decl (binds_of bs) semi)) }
    {
        let binds = parts::binds(self.alloc, binds)?;
        Ok(build::binds(decl, binds, semi))
    }

    fn make_value(&mut self, value: Expr, semi: bool) -> Result<Stmt, AllocError> {
        Ok(build::value(value, semi))
    }

    fn make_if(&mut self, test: Expr, yes: Stmt, no: Option<Stmt>) -> Result<Stmt, AllocError>
        ensures { (i : Interpretation) (t : model.Expr) (u : model.Stmt) (v : Option model.Stmt) → IsExpr i test t → IsStmt i yes u
            → ShowMaybe (IsStmt i) no v
            → IfOk result (λ s. IsStmt i s (model.If t u (maybe_stmt_of v))) }
    {
        build::if_stmt(self.alloc, test, yes, no)
    }

    fn make_do(&mut self, body: Stmt, test: Expr, semi: bool) -> Result<Stmt, AllocError> {
        build::do_stmt(self.alloc, body, test, semi)
    }

    fn make_while(&mut self, test: Expr, body: Stmt) -> Result<Stmt, AllocError> {
        build::while_stmt(self.alloc, test, body)
    }

    fn make_for(
        &mut self,
        init: NodeInit<Expr>,
        test: Option<Expr>,
        update: Option<Expr>,
        body: Stmt,
    ) -> Result<Stmt, AllocError>
        ensures { (i : Interpretation) (n : model.Init) (t u : Option model.Expr) (b : model.Stmt) → ShowInit i (IsExpr i) init n
            → ShowMaybe (IsExpr i) test t → ShowMaybe (IsExpr i) update u → IsStmt i body b
            → IfOk result (λ s. IsStmt i s (model.For n (maybe_expr_of t) (maybe_expr_of u) b)) }
    {
        let init = parts::init(self.alloc, init)?;
        build::for_stmt(self.alloc, init, test, update, body)
    }

    fn make_forin(
        &mut self,
        each: NodeEach<Expr>,
        over: Expr,
        body: Stmt,
    ) -> Result<Stmt, AllocError>
        ensures { (i : Interpretation) (n : model.Each) (t : model.Expr) (b : model.Stmt) → ShowEach i (IsExpr i) each n → IsExpr i over t
            → IsStmt i body b
            → IfOk result (λ s. IsStmt i s (model.ForIn n t b)) }
    {
        build::for_in(self.alloc, parts::each(each), over, body)
    }

    fn make_continue(
        &mut self,
        at: u32,
        label: Option<Ident>,
        semi: bool,
    ) -> Result<Stmt, AllocError> {
        Ok(build::continue_stmt(at, label, semi))
    }

    fn make_break(
        &mut self,
        at: u32,
        label: Option<Ident>,
        semi: bool,
    ) -> Result<Stmt, AllocError> {
        Ok(build::break_stmt(at, label, semi))
    }

    fn make_return(&mut self, value: Option<Expr>, semi: bool) -> Result<Stmt, AllocError>
        ensures { (i : Interpretation) (t : Option model.Expr) → ShowMaybe (IsExpr i) value t
            → IfOk result (λ s. IsStmt i s (model.Return (maybe_expr_of t) semi)) }
    {
        Ok(build::return_stmt(value, semi))
    }

    fn make_throw(&mut self, value: Expr, semi: bool) -> Result<Stmt, AllocError> {
        Ok(build::throw(value, semi))
    }

    fn make_switch(
        &mut self,
        of: Expr,
        clauses: Vec<NodeClause<Expr, Stmt>>,
    ) -> Result<Stmt, AllocError>
        ensures { (i : Interpretation) (t : model.Expr) (cs : List part.Clause) → IsExpr i of t
            → ShowAll (ShowClause (IsExpr i) (IsStmt i)) clauses.items cs
            → IfOk result (λ s. IsStmt i s (model.Switch t (clauses_of cs))) }
    {
        let clauses = parts::clauses(self.alloc, clauses)?;
        build::switch(self.alloc, of, clauses)
    }

    fn make_label(&mut self, name: Ident, body: Stmt) -> Result<Stmt, AllocError> {
        build::label(self.alloc, name, body)
    }

    fn make_try(
        &mut self,
        body: Vec<Stmt>,
        param: Option<Ident>,
        handler: Vec<Stmt>,
    ) -> Result<Stmt, AllocError>
        ensures { (i : Interpretation) (bs hs : List model.Stmt) → ShowAll (IsStmt i) body.items bs → ShowAll (IsStmt i) handler.items hs
            → IfOk result (λ s. IsStmt i s (model.Try (stmts_of bs) (maybe_named i param) (stmts_of hs))) }
    {
        build::try_stmt(self.alloc, body, param, handler)
    }

    fn make_declared(&mut self, func: NodeFunc<Expr, Vec<Stmt>>) -> Result<Stmt, AllocError>
        ensures { (i : Interpretation) (f : model.Function) → ShowFunc i (IsExpr i) (IsBody i) func f
            → IfOk result (λ s. IsStmt i s (model.Declared f)) }
    {
        let func = parts::func(self.alloc, func)?;
        build::declared(self.alloc, func)
    }

    fn body(&mut self, items: Vec<Stmt>) -> Result<Vec<Stmt>, AllocError>
        ensures { (i : Interpretation) (ss : List model.Stmt) → ShowAll (IsStmt i) items.items ss
            → IfOk result (λ b. IsBody i b (stmts_of ss)) }
    {
        Ok(items)
    }
}
