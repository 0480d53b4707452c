//! The handler.

ghost use Rattle.std.specs.Prelude.{◌≡◌, List, Option, None, true, false, IfOk};
ghost use Rattle.script_grammar.specs.Interpretation.{Interpretation, text_of, named, maybe_named};
ghost use Rattle.script_grammar.specs.Shows.{ShowAll, ShowMaybe, ShowArgs, ShowOperand, ShowPart, ShowTail, ShowKey, ShowFunc};
ghost use Rattle.script_grammar.specs.Shows.{ShowBind, ShowInit, ShowEach, ShowClause};
ghost use Rattle.script_grammar.specs.Tree as model;
ghost use Rattle.script_grammar.specs.TreeLists as part;
ghost use Rattle.script_grammar.specs.TreeLists.{exprs_of, maybe_expr_of, items_of, maybe_args_of, operands_of, parts_of, tails_of};
ghost use Rattle.script_grammar.specs.TreeLists.{props_of, binds_of, clauses_of, stmts_of, maybe_stmt_of};
ghost use Rattle.parse_early_handler.specs.declared.shape.Shape.TheVariants as form;
ghost use Rattle.parse_skim_handler.specs.declared.told.Told.TheVariants as told;
ghost use Rattle.parse_skim_handler.specs.Packed.{expr_of, prop_of, stmt_of, whole_expr, whole_prop, whole_stmt};
ghost use Rattle.parse_skim_handler.specs.Skims.{SkimsExpr, SkimsStmt, SkimsProp, SkimsBody};

use crate::forms::{first_strict, later_protos, start_of_first};
use crate::functions::{named_function, skim_function};
use crate::kept::{Kept, Skim, nothing, of_error, of_expr, of_target, region, skim_top, with_said};
use crate::nodes::{SkimBody, SkimExpr, SkimProp, SkimStmt, WholeExpr, WholeProp};
use crate::packed::{Whole, pack_expr, pack_prop, pack_stmt};
use crate::parts::{skim_binds, skim_block, skim_handling, skim_labelled};
use crate::told::{Parts, Told, parts_of};
use parse_early_handler::keys::proto_key;
use parse_early_handler::parts::end_in_property;
use parse_early_handler::{
    BodyErrors, Directive, EarlyErrorHandler, ExprErrors, PropErrors, Shape, StmtErrors,
};
use parse_handlers::SyntaxBody;
use parse_track::region::{Jump, Region};
use parse_track_pieces::Piece;
use script_grammar::handler::Handler;
use script_grammar::node::{
    NodeArgs, NodeBind, NodeClause, NodeEach, NodeFunc, NodeInit, NodeKey, NodeOperand, NodeTail,
    NodeTemplatePart,
};
use script_grammar::token::Decl;
use script_grammar::tree::Ident;
use std::alloc::{AllocError, Global};

/// A handler that keeps no tree. Its nodes are what the parts tell a track, the functions in them and their first early errors.
#[derive(Drop)]
pub struct Skimming {
    alloc: Global,
    errors: EarlyErrorHandler,
}

impl Skimming {
    /// A handler that keeps its pieces in this memory.
    pub fn new(alloc: Global) -> Skimming {
        let errors = EarlyErrorHandler::new();
        Skimming { alloc, errors }
    }
}

/// An expression in which nothing is told.
fn quiet(alloc: Global, errors: ExprErrors) -> Result<SkimExpr, AllocError>
    ensures { IfOk result (λ made. whole_expr made ≡ record { told = told.Nothing; errors = errors }) }
{
    let told = Told::Nothing;
    pack_expr(alloc, WholeExpr { told, errors })
}

/// An expression of this form, of which this is kept.
fn expr(alloc: Global, kept: Kept, start: u32, shape: Shape) -> Result<SkimExpr, AllocError>
    ensures { IfOk result (λ made. whole_expr made ≡ expr_of kept start shape) }
{
    let Kept { told, first } = kept;
    let errors = ExprErrors {
        first,
        start,
        shape,
    };
    pack_expr(alloc, WholeExpr { told, errors })
}

/// An expression whose form no rule looks at.
fn other(alloc: Global, kept: Kept, start: u32) -> Result<SkimExpr, AllocError>
    ensures { IfOk result (λ made. whole_expr made ≡ expr_of kept start form.Other) }
{
    expr(alloc, kept, start, Shape::Other)
}

/// A property, of which this is kept.
fn prop(alloc: Global, kept: Kept, proto: Option<u32>) -> Result<SkimProp, AllocError>
    ensures { IfOk result (λ made. whole_prop made ≡ prop_of kept proto) }
{
    let Kept { told, first } = kept;
    let errors = PropErrors { first, proto };
    pack_prop(alloc, WholeProp { told, errors })
}

/// A statement that is no directive, of which this is kept.
fn stmt(
    alloc: Global,
    kept: Kept,
    declares: Option<Ident>,
    labels_on: bool,
) -> Result<SkimStmt, AllocError>
    ensures { IfOk result (λ made. whole_stmt made ≡ stmt_of kept declares labels_on) }
{
    let Kept { told, first } = kept;
    let errors = StmtErrors {
        first,
        directive: Directive::No,
    };
    let whole = Whole {
        declares,
        labels_on,
        told,
        errors,
    };
    pack_stmt(alloc, whole)
}

/// A statement that declares no function and is neither a loop nor a label.
fn plain(alloc: Global, kept: Kept) -> Result<SkimStmt, AllocError>
    ensures { IfOk result (λ made. whole_stmt made ≡ stmt_of kept None false) }
{
    stmt(alloc, kept, None, false)
}

/// A loop, or a statement after a label.
fn looping(alloc: Global, kept: Kept) -> Result<SkimStmt, AllocError>
    ensures { IfOk result (λ made. whole_stmt made ≡ stmt_of kept None true) }
{
    stmt(alloc, kept, None, true)
}

impl Handler for Skimming {
    type E = SkimExpr;

    type S = SkimStmt;

    type P = SkimProp;

    type B = SkimBody;

    ghost shows_expr = { SkimsExpr };

    ghost shows_stmt = { SkimsStmt };

    ghost shows_prop = { SkimsProp };

    ghost shows_body = { SkimsBody };

    fn make_this(&mut self, at: u32) -> Result<SkimExpr, AllocError>
        ensures { (i : Interpretation) → IfOk result (λ e. SkimsExpr i e (model.This at)) }
    {
        let errors = self.errors.make_this(at)?;
        let kept = with_said(self.alloc, nothing(), Piece::This)?;
        let told = kept.told;
        let node = pack_expr(self.alloc, WholeExpr { told, errors })?;
        Ok(node)
    }

    fn make_name(&mut self, name: Ident) -> Result<SkimExpr, AllocError>
        ensures { (i : Interpretation) → IfOk result (λ e. SkimsExpr i e (model.Name (named i name))) }
    {
        let errors = self.errors.make_name(name)?;
        let told = Told::Used { atom: name.atom };
        let node = pack_expr(self.alloc, WholeExpr { told, errors })?;
        Ok(node)
    }

    fn make_null(&mut self, at: u32) -> Result<SkimExpr, AllocError>
        ensures { (i : Interpretation) → IfOk result (λ e. SkimsExpr i e (model.Null at)) }
    {
        let errors = self.errors.make_null(at)?;
        let node = quiet(self.alloc, errors)?;
        Ok(node)
    }

    fn make_true(&mut self, at: u32) -> Result<SkimExpr, AllocError>
        ensures { (i : Interpretation) → IfOk result (λ e. SkimsExpr i e (model.True at)) }
    {
        let errors = self.errors.make_true(at)?;
        let node = quiet(self.alloc, errors)?;
        Ok(node)
    }

    fn make_false(&mut self, at: u32) -> Result<SkimExpr, AllocError>
        ensures { (i : Interpretation) → IfOk result (λ e. SkimsExpr i e (model.False at)) }
    {
        let errors = self.errors.make_false(at)?;
        let node = quiet(self.alloc, errors)?;
        Ok(node)
    }

    fn make_number(&mut self, at: u32, value: u64) -> Result<SkimExpr, AllocError>
        ensures { (i : Interpretation) → IfOk result (λ e. SkimsExpr i e (model.Number at value)) }
    {
        let errors = self.errors.make_number(at, value)?;
        let node = quiet(self.alloc, errors)?;
        Ok(node)
    }

    fn make_str(&mut self, at: u32, end: u32, atom: u32) -> Result<SkimExpr, AllocError>
        ensures { (i : Interpretation) → IfOk result (λ e. SkimsExpr i e (model.Str at end (text_of i atom))) }
    {
        let errors = self.errors.make_str(at, end, atom)?;
        let node = quiet(self.alloc, errors)?;
        Ok(node)
    }

    fn make_template(
        &mut self,
        at: u32,
        _first: u32,
        parts: Vec<NodeTemplatePart<SkimExpr>>,
    ) -> Result<SkimExpr, AllocError>
        ensures { (i : Interpretation) (ps : List part.Part) → ShowAll (ShowPart i (SkimsExpr i)) parts.items ps
            → IfOk result (λ e. SkimsExpr i e (model.Template at (text_of i _first) (parts_of ps))) }
    {
        let kept = parts.skim(self.alloc, nothing())?;
        let node = other(self.alloc, kept, at)?;
        Ok(node)
    }

    fn make_array(
        &mut self,
        at: u32,
        items: Vec<Option<SkimExpr>>,
        _comma: bool,
    ) -> Result<SkimExpr, AllocError>
        ensures { (i : Interpretation) (ts : List (Option model.Expr)) → ShowAll (ShowMaybe (SkimsExpr i)) items.items ts
            → IfOk result (λ e. SkimsExpr i e (model.Array at (items_of ts) _comma)) }
    {
        let kept = items.skim(self.alloc, nothing())?;
        let node = other(self.alloc, kept, at)?;
        Ok(node)
    }

    fn make_object(
        &mut self,
        at: u32,
        props: Vec<SkimProp>,
        _comma: bool,
    ) -> Result<SkimExpr, AllocError>
        ensures { (i : Interpretation) (ps : List model.Prop) → ShowAll (SkimsProp i) props.items ps
            → IfOk result (λ e. SkimsExpr i e (model.Object at (props_of ps) _comma)) }
    {
        let later = later_protos(&props);
        let kept = props.skim(self.alloc, of_error(later))?;
        let node = other(self.alloc, kept, at)?;
        Ok(node)
    }

    fn make_func(
        &mut self,
        at: u32,
        func: NodeFunc<SkimExpr, SkimBody>,
    ) -> Result<SkimExpr, AllocError>
        ensures { (i : Interpretation) (f : model.Function) → ShowFunc i (SkimsExpr i) (SkimsBody i) func f
            → IfOk result (λ e. SkimsExpr i e (model.Func at f)) }
    {
        let kept = named_function(self.alloc, func)?;
        let node = other(self.alloc, kept, at)?;
        Ok(node)
    }

    fn make_paren(&mut self, at: u32, inner: SkimExpr) -> Result<SkimExpr, AllocError>
        ensures { (i : Interpretation) (t : model.Expr) → SkimsExpr i inner t
            → IfOk result (λ e. SkimsExpr i e (model.Paren at t)) }
    {
        let WholeExpr { told, errors } = inner.whole();
        let errors = self.errors.make_paren(at, errors)?;
        let node = pack_expr(self.alloc, WholeExpr { told, errors })?;
        Ok(node)
    }

    fn make_chain(
        &mut self,
        head: SkimExpr,
        tails: Vec<NodeTail<SkimExpr>>,
    ) -> Result<SkimExpr, AllocError>
        ensures { (i : Interpretation) (t : model.Expr) (ts : List model.Tail) → SkimsExpr i head t
            → ShowAll (ShowTail i (SkimsExpr i)) tails.items ts
            → IfOk result (λ e. SkimsExpr i e (model.Chain t (tails_of ts))) }
    {
        let start = head.start;
        let property = end_in_property(&tails);
        let shape = Shape::of_chain(property);
        let kept = tails.skim(self.alloc, of_expr(head))?;
        let node = expr(self.alloc, kept, start, shape)?;
        Ok(node)
    }

    fn make_new(
        &mut self,
        at: u32,
        callee: SkimExpr,
        args: Option<NodeArgs<SkimExpr>>,
    ) -> Result<SkimExpr, AllocError>
        ensures { (i : Interpretation) (t : model.Expr) (a : Option part.Args) → SkimsExpr i callee t → ShowMaybe (ShowArgs (SkimsExpr i)) args a
            → IfOk result (λ e. SkimsExpr i e (model.New at t (maybe_args_of a))) }
    {
        let kept = args.skim(self.alloc, of_expr(callee))?;
        let node = other(self.alloc, kept, at)?;
        Ok(node)
    }

    fn make_unary(
        &mut self,
        at: u32,
        op: u8,
        of: SkimExpr,
        is_word: bool,
    ) -> Result<SkimExpr, AllocError>
        ensures { (i : Interpretation) (t : model.Expr) → SkimsExpr i of t
            → IfOk result (λ e. SkimsExpr i e (model.Unary at op t is_word)) }
    {
        let WholeExpr { told, errors } = of.whole();
        let errors = self.errors.make_unary(at, op, errors, is_word)?;
        let node = pack_expr(self.alloc, WholeExpr { told, errors })?;
        Ok(node)
    }

    fn make_update(
        &mut self,
        at: u32,
        op: u8,
        prefix: bool,
        of: SkimExpr,
    ) -> Result<SkimExpr, AllocError>
        ensures { (i : Interpretation) (t : model.Expr) → SkimsExpr i of t
            → IfOk result (λ e. SkimsExpr i e (model.Update at op prefix t)) }
    {
        let WholeExpr { told, errors } = of.whole();
        let errors = self.errors.make_update(at, op, prefix, errors)?;
        let node = pack_expr(self.alloc, WholeExpr { told, errors })?;
        Ok(node)
    }

    fn make_binary(
        &mut self,
        first: SkimExpr,
        rest: Vec<NodeOperand<SkimExpr>>,
    ) -> Result<SkimExpr, AllocError>
        ensures { (i : Interpretation) (t : model.Expr) (os : List part.Operand) → SkimsExpr i first t
            → ShowAll (ShowOperand (SkimsExpr i)) rest.items os
            → IfOk result (λ e. SkimsExpr i e (model.Binary t (operands_of os))) }
    {
        let start = first.start;
        let kept = rest.skim(self.alloc, of_expr(first))?;
        let node = other(self.alloc, kept, start)?;
        Ok(node)
    }

    fn make_cond(
        &mut self,
        test: SkimExpr,
        yes: SkimExpr,
        no: SkimExpr,
    ) -> Result<SkimExpr, AllocError>
        ensures { (i : Interpretation) (t u v : model.Expr) → SkimsExpr i test t → SkimsExpr i yes u → SkimsExpr i no v
            → IfOk result (λ e. SkimsExpr i e (model.Cond t u v)) }
    {
        let start = test.start;
        let chosen = yes.skim(self.alloc, of_expr(test))?;
        let kept = no.skim(self.alloc, chosen)?;
        let node = other(self.alloc, kept, start)?;
        Ok(node)
    }

    fn make_assign(
        &mut self,
        _op: u8,
        target: SkimExpr,
        value: SkimExpr,
    ) -> Result<SkimExpr, AllocError>
        ensures { (i : Interpretation) (t v : model.Expr) → SkimsExpr i target t → SkimsExpr i value v
            → IfOk result (λ e. SkimsExpr i e (model.Assign _op t v)) }
    {
        let start = target.start;
        let kept = value.skim(self.alloc, of_target(target))?;
        let node = other(self.alloc, kept, start)?;
        Ok(node)
    }

    fn make_comma(&mut self, items: Vec<SkimExpr>) -> Result<SkimExpr, AllocError>
        ensures { (i : Interpretation) (ts : List model.Expr) → ShowAll (SkimsExpr i) items.items ts
            → IfOk result (λ e. SkimsExpr i e (model.Comma (exprs_of ts))) }
    {
        let start = start_of_first(&items);
        let kept = items.skim(self.alloc, nothing())?;
        let node = other(self.alloc, kept, start)?;
        Ok(node)
    }

    fn make_short(&mut self, name: Ident) -> Result<SkimProp, AllocError>
        ensures { (i : Interpretation) → IfOk result (λ p. SkimsProp i p (model.Short (named i name))) }
    {
        let errors = self.errors.make_short(name)?;
        let told = Told::Used { atom: name.atom };
        let node = pack_prop(self.alloc, WholeProp { told, errors })?;
        Ok(node)
    }

    fn make_pair(&mut self, key: NodeKey<SkimExpr>, value: SkimExpr) -> Result<SkimProp, AllocError>
        ensures { (i : Interpretation) (k : model.Key) (v : model.Expr) → ShowKey i (SkimsExpr i) key k → SkimsExpr i value v
            → IfOk result (λ p. SkimsProp i p (model.Pair k v)) }
    {
        let proto = proto_key(&key);
        let named = key.skim(self.alloc, nothing())?;
        let kept = value.skim(self.alloc, named)?;
        let node = prop(self.alloc, kept, proto)?;
        Ok(node)
    }

    fn make_method(
        &mut self,
        key: NodeKey<SkimExpr>,
        func: NodeFunc<SkimExpr, SkimBody>,
    ) -> Result<SkimProp, AllocError>
        ensures { (i : Interpretation) (k : model.Key) (f : model.Function) → ShowKey i (SkimsExpr i) key k
            → ShowFunc i (SkimsExpr i) (SkimsBody i) func f
            → IfOk result (λ p. SkimsProp i p (model.Method k f)) }
    {
        let named = key.skim(self.alloc, nothing())?;
        let kept = skim_function(self.alloc, named, false, func)?;
        let node = prop(self.alloc, kept, None)?;
        Ok(node)
    }

    fn make_get(
        &mut self,
        key: NodeKey<SkimExpr>,
        func: NodeFunc<SkimExpr, SkimBody>,
    ) -> Result<SkimProp, AllocError>
        ensures { (i : Interpretation) (k : model.Key) (f : model.Function) → ShowKey i (SkimsExpr i) key k
            → ShowFunc i (SkimsExpr i) (SkimsBody i) func f
            → IfOk result (λ p. SkimsProp i p (model.Get k f)) }
    {
        let named = key.skim(self.alloc, nothing())?;
        let kept = skim_function(self.alloc, named, false, func)?;
        let node = prop(self.alloc, kept, None)?;
        Ok(node)
    }

    fn make_set(
        &mut self,
        key: NodeKey<SkimExpr>,
        func: NodeFunc<SkimExpr, SkimBody>,
    ) -> Result<SkimProp, AllocError>
        ensures { (i : Interpretation) (k : model.Key) (f : model.Function) → ShowKey i (SkimsExpr i) key k
            → ShowFunc i (SkimsExpr i) (SkimsBody i) func f
            → IfOk result (λ p. SkimsProp i p (model.Set k f)) }
    {
        let named = key.skim(self.alloc, nothing())?;
        let kept = skim_function(self.alloc, named, false, func)?;
        let node = prop(self.alloc, kept, None)?;
        Ok(node)
    }

    fn make_block(&mut self, items: Vec<SkimStmt>) -> Result<SkimStmt, AllocError>
        ensures { (i : Interpretation) (ss : List model.Stmt) → ShowAll (SkimsStmt i) items.items ss
            → IfOk result (λ s. SkimsStmt i s (model.Block (stmts_of ss))) }
    {
        let kept = skim_block(self.alloc, nothing(), items)?;
        let node = plain(self.alloc, kept)?;
        Ok(node)
    }

    fn make_empty(&mut self) -> Result<SkimStmt, AllocError>
        ensures { (i : Interpretation) → IfOk result (λ s. SkimsStmt i s model.Empty) }
    {
        let node = plain(self.alloc, nothing())?;
        Ok(node)
    }

    fn make_debugger(&mut self, _semi: bool) -> Result<SkimStmt, AllocError>
        ensures { (i : Interpretation) → IfOk result (λ s. SkimsStmt i s (model.Debugger _semi)) }
    {
        let node = plain(self.alloc, nothing())?;
        Ok(node)
    }

    fn make_binds(
        &mut self,
        decl: Decl,
        binds: Vec<NodeBind<SkimExpr>>,
        _semi: bool,
    ) -> Result<SkimStmt, AllocError>
        ensures { (i : Interpretation) (bs : List part.Bind) → ShowAll (ShowBind i (SkimsExpr i)) binds.items bs
            → IfOk result (λ s. SkimsStmt i s (model.Binding decl (binds_of bs) _semi)) }
    {
        let kept = skim_binds(self.alloc, nothing(), decl, binds)?;
        let node = plain(self.alloc, kept)?;
        Ok(node)
    }

    fn make_value(&mut self, value: SkimExpr, semi: bool) -> Result<SkimStmt, AllocError>
        ensures { (i : Interpretation) (t : model.Expr) → SkimsExpr i value t
            → IfOk result (λ s. SkimsStmt i s (model.Value t semi)) }
    {
        let WholeExpr { told, errors } = value.whole();
        let errors = self.errors.make_value(errors, semi)?;
        let whole = Whole {
            declares: None,
            labels_on: false,
            told,
            errors,
        };
        let node = pack_stmt(self.alloc, whole)?;
        Ok(node)
    }

    fn make_if(
        &mut self,
        test: SkimExpr,
        yes: SkimStmt,
        no: Option<SkimStmt>,
    ) -> Result<SkimStmt, AllocError>
        ensures { (i : Interpretation) (t : model.Expr) (u : model.Stmt) (v : Option model.Stmt) → SkimsExpr i test t → SkimsStmt i yes u
            → ShowMaybe (SkimsStmt i) no v
            → IfOk result (λ s. SkimsStmt i s (model.If t u (maybe_stmt_of v))) }
    {
        let chosen = yes.skim(self.alloc, of_expr(test))?;
        let kept = no.skim(self.alloc, chosen)?;
        let node = plain(self.alloc, kept)?;
        Ok(node)
    }

    fn make_do(
        &mut self,
        body: SkimStmt,
        test: SkimExpr,
        _semi: bool,
    ) -> Result<SkimStmt, AllocError>
        ensures { (i : Interpretation) (b : model.Stmt) (t : model.Expr) → SkimsStmt i body b → SkimsExpr i test t
            → IfOk result (λ s. SkimsStmt i s (model.Do b t _semi)) }
    {
        let done = body.skim(self.alloc, nothing())?;
        let inside = test.skim(self.alloc, done)?;
        let kept = region(self.alloc, nothing(), Region::Loop, inside)?;
        let node = looping(self.alloc, kept)?;
        Ok(node)
    }

    fn make_while(&mut self, test: SkimExpr, body: SkimStmt) -> Result<SkimStmt, AllocError>
        ensures { (i : Interpretation) (t : model.Expr) (b : model.Stmt) → SkimsExpr i test t → SkimsStmt i body b
            → IfOk result (λ s. SkimsStmt i s (model.While t b)) }
    {
        let inside = body.skim(self.alloc, of_expr(test))?;
        let kept = region(self.alloc, nothing(), Region::Loop, inside)?;
        let node = looping(self.alloc, kept)?;
        Ok(node)
    }

    fn make_for(
        &mut self,
        init: NodeInit<SkimExpr>,
        test: Option<SkimExpr>,
        update: Option<SkimExpr>,
        body: SkimStmt,
    ) -> Result<SkimStmt, AllocError>
        ensures { (i : Interpretation) (n : model.Init) (t u : Option model.Expr) (b : model.Stmt) → ShowInit i (SkimsExpr i) init n
            → ShowMaybe (SkimsExpr i) test t → ShowMaybe (SkimsExpr i) update u → SkimsStmt i body b
            → IfOk result (λ s. SkimsStmt i s (model.For n (maybe_expr_of t) (maybe_expr_of u) b)) }
    {
        let begun = init.skim(self.alloc, nothing())?;
        let tested = test.skim(self.alloc, begun)?;
        let updated = update.skim(self.alloc, tested)?;
        let inside = body.skim(self.alloc, updated)?;
        let head = region(self.alloc, nothing(), Region::ForHead, inside)?;
        let kept = region(self.alloc, nothing(), Region::Loop, head)?;
        let node = looping(self.alloc, kept)?;
        Ok(node)
    }

    fn make_forin(
        &mut self,
        each: NodeEach<SkimExpr>,
        over: SkimExpr,
        body: SkimStmt,
    ) -> Result<SkimStmt, AllocError>
        ensures { (i : Interpretation) (n : model.Each) (t : model.Expr) (b : model.Stmt) → ShowEach i (SkimsExpr i) each n → SkimsExpr i over t
            → SkimsStmt i body b
            → IfOk result (λ s. SkimsStmt i s (model.ForIn n t b)) }
    {
        let begun = each.skim(self.alloc, nothing())?;
        let listed = over.skim(self.alloc, begun)?;
        let inside = body.skim(self.alloc, listed)?;
        let head = region(self.alloc, nothing(), Region::ForHead, inside)?;
        let kept = region(self.alloc, nothing(), Region::Loop, head)?;
        let node = looping(self.alloc, kept)?;
        Ok(node)
    }

    fn make_continue(
        &mut self,
        at: u32,
        label: Option<Ident>,
        _semi: bool,
    ) -> Result<SkimStmt, AllocError>
        ensures { (i : Interpretation) → IfOk result (λ s. SkimsStmt i s (model.Continue at (maybe_named i label) _semi)) }
    {
        let jump = Piece::jump(self.alloc, Jump::Continue, at, label)?;
        let kept = with_said(self.alloc, nothing(), jump)?;
        let node = plain(self.alloc, kept)?;
        Ok(node)
    }

    fn make_break(
        &mut self,
        at: u32,
        label: Option<Ident>,
        _semi: bool,
    ) -> Result<SkimStmt, AllocError>
        ensures { (i : Interpretation) → IfOk result (λ s. SkimsStmt i s (model.Break at (maybe_named i label) _semi)) }
    {
        let jump = Piece::jump(self.alloc, Jump::Break, at, label)?;
        let kept = with_said(self.alloc, nothing(), jump)?;
        let node = plain(self.alloc, kept)?;
        Ok(node)
    }

    fn make_return(&mut self, value: Option<SkimExpr>, _semi: bool) -> Result<SkimStmt, AllocError>
        ensures { (i : Interpretation) (t : Option model.Expr) → ShowMaybe (SkimsExpr i) value t
            → IfOk result (λ s. SkimsStmt i s (model.Return (maybe_expr_of t) _semi)) }
    {
        let kept = value.skim(self.alloc, nothing())?;
        let node = plain(self.alloc, kept)?;
        Ok(node)
    }

    fn make_throw(&mut self, value: SkimExpr, _semi: bool) -> Result<SkimStmt, AllocError>
        ensures { (i : Interpretation) (t : model.Expr) → SkimsExpr i value t
            → IfOk result (λ s. SkimsStmt i s (model.Throw t _semi)) }
    {
        let node = plain(self.alloc, of_expr(value))?;
        Ok(node)
    }

    fn make_switch(
        &mut self,
        of: SkimExpr,
        clauses: Vec<NodeClause<SkimExpr, SkimStmt>>,
    ) -> Result<SkimStmt, AllocError>
        ensures { (i : Interpretation) (t : model.Expr) (cs : List part.Clause) → SkimsExpr i of t
            → ShowAll (ShowClause (SkimsExpr i) (SkimsStmt i)) clauses.items cs
            → IfOk result (λ s. SkimsStmt i s (model.Switch t (clauses_of cs))) }
    {
        let inside = clauses.skim(self.alloc, nothing())?;
        let kept = region(self.alloc, of_expr(of), Region::Switch, inside)?;
        let node = plain(self.alloc, kept)?;
        Ok(node)
    }

    fn make_label(&mut self, name: Ident, body: SkimStmt) -> Result<SkimStmt, AllocError>
        ensures { (i : Interpretation) (b : model.Stmt) → SkimsStmt i body b
            → IfOk result (λ s. SkimsStmt i s (model.Label (named i name) b)) }
    {
        let inside = skim_labelled(self.alloc, body)?;
        let kept = region(self.alloc, nothing(), Region::Label(name), inside)?;
        let node = looping(self.alloc, kept)?;
        Ok(node)
    }

    fn make_try(
        &mut self,
        body: Vec<SkimStmt>,
        param: Option<Ident>,
        handler: Vec<SkimStmt>,
    ) -> Result<SkimStmt, AllocError>
        ensures { (i : Interpretation) (bs hs : List model.Stmt) → ShowAll (SkimsStmt i) body.items bs → ShowAll (SkimsStmt i) handler.items hs
            → IfOk result (λ s. SkimsStmt i s (model.Try (stmts_of bs) (maybe_named i param) (stmts_of hs))) }
    {
        let tried = skim_block(self.alloc, nothing(), body)?;
        let kept = skim_handling(self.alloc, tried, param, handler)?;
        let node = plain(self.alloc, kept)?;
        Ok(node)
    }

    fn make_declared(&mut self, func: NodeFunc<SkimExpr, SkimBody>) -> Result<SkimStmt, AllocError>
        ensures { (i : Interpretation) (f : model.Function) → ShowFunc i (SkimsExpr i) (SkimsBody i) func f
            → IfOk result (λ s. SkimsStmt i s (model.Declared f)) }
    {
        let declares = func.name;
        let kept = skim_function(self.alloc, nothing(), true, func)?;
        let node = stmt(self.alloc, kept, declares, false)?;
        Ok(node)
    }

    fn body(&mut self, items: Vec<SkimStmt>) -> Result<SkimBody, AllocError>
        ensures { (i : Interpretation) (ss : List model.Stmt) → ShowAll (SkimsStmt i) items.items ss
            → IfOk result (λ b. SkimsBody i b (stmts_of ss)) }
    {
        let strict = first_strict(&items);
        let kept = skim_top(self.alloc, nothing(), items)?;
        let Kept { told, first } = kept;
        let Parts { pieces, found } = parts_of(self.alloc, told)?;
        let told = Piece::many(self.alloc, pieces)?;
        Ok(SkimBody {
            told,
            found: SyntaxBody { found },
            errors: BodyErrors { first, strict },
        })
    }
}
