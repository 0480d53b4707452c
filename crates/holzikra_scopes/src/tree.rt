//! The tree of functions, scopes and bindings.

use crate::layout::Layout;
use crate::uses::Uses;
use holzikra_finding::Shown;
use holzikra_flow::place_of;
use holzikra_names::{Source, append_extent, append_name, append_script, text_at};
use script_image::append_decimal;
use std::alloc::{AllocError, Global};
use stencil_data::{
    BindKind, Binding, Entry, Extent, FunctionStencil, MergedStencil, ScopeData, ScopeKind, Slot,
};

/// The tree as far as it is drawn.
#[derive(Drop)]
struct Tree<'a> {
    merged: &'a MergedStencil,
    uses: &'a Uses,
    layout: &'a Layout,
    out: &'a mut Vec<u8>,
    /// For each level whether further lines hang on the line that is drawn from it.
    goes_on: Vec<bool>,
}

/// What is drawn of a function, or of the script.
#[derive(Clone, Copy)]
enum Part<'a> {
    Compiled(&'a FunctionStencil),
    /// It is not compiled.
    Lazy,
    /// Its scopes are left out.
    Folded,
}

impl<'a> Part<'a> {
    /// What is drawn where so much is shown, and this is compiled.
    fn of(shown: Option<Shown>, compiled: Option<&'a FunctionStencil>) -> Part<'a> {
        match compiled {
            _ if shown == Some(Shown::Folded) => Part::Folded,
            None => Part::Lazy,
            Some(part) => Part::Compiled(part),
        }
    }
}

fn scope_words(kind: ScopeKind) -> &'static str {
    match kind {
        ScopeKind::Global => "Global",
        ScopeKind::Function => "Function",
        ScopeKind::FunctionLexical => "FunctionLexical",
        ScopeKind::Lexical => "Lexical",
        ScopeKind::SimpleCatch => "SimpleCatch",
        ScopeKind::StrictNamedLambda => "StrictNamedLambda",
        ScopeKind::FunctionBodyVar => "FunctionBodyVar",
    }
}

fn bind_words(kind: BindKind) -> &'static str {
    match kind {
        BindKind::Param => "param",
        BindKind::Var => "var",
        BindKind::Let => "let",
        BindKind::Const => "const",
        BindKind::Function => "function",
        BindKind::Catch => "catch",
        BindKind::Callee => "callee",
        BindKind::Arguments => "arguments",
        BindKind::This => "this",
    }
}

fn append_slot(out: &mut Vec<u8>, slot: Slot) -> Result<(), AllocError> {
    let (words, number) = match slot {
        Slot::Global => ("global", None),
        Slot::Arg(number) => ("arg ", Some(number)),
        Slot::Frame(number) => ("frame ", Some(number)),
        Slot::Env(number) => ("env ", Some(number)),
        Slot::Callee => ("callee", None),
    };
    out.extend_from_slice(words.as_bytes())?;
    match number {
        None => Ok(()),
        Some(number) => append_decimal(out, u64::from(number)),
    }
}

/// How many scopes of a part have bindings.
fn shown_scopes(part: &FunctionStencil) -> usize {
    let mut count = 0usize;
    for scope in &part.scopes {
        if !scope.bindings.is_empty() {
            count = count.saturating_add(1);
        }
    }
    count
}

impl<'a> Tree<'a> {
    /// What stands in front of a line that hangs on the one of a level, up to its branch.
    fn draw_branch(&mut self, level: usize, last: bool) -> Result<(), AllocError> {
        for outer in 0..level {
            let goes_on = self.goes_on.get(outer).copied().unwrap_or(false);
            let words = if goes_on { "|   " } else { "    " };
            self.out.extend_from_slice(words.as_bytes())?;
        }
        let words = if last { "`-- " } else { "|-- " };
        self.out.extend_from_slice(words.as_bytes())?;
        Ok(())
    }

    /// Keeps whether further lines hang on the line from a level, and forgets the levels behind it.
    fn keep_level(&mut self, level: usize, goes_on: bool) -> Result<(), AllocError> {
        self.goes_on.truncate(level);
        self.goes_on.push(goes_on)?;
        Ok(())
    }

    /// Appends the users of a binding that lives in an environment.
    fn draw_users(&mut self, function: u32, scope: u32, slot: u32) -> Result<(), AllocError> {
        let Some(binding) = place_of(&self.uses.bindings, function, scope, u64::from(slot)) else {
            return Ok(());
        };
        let uses = self.uses;
        let first = uses.first_of(binding);
        for index in first..uses.all.len() {
            let one = uses.all[index];
            if one.binding != binding {
                break;
            }
            self.draw_user(one.user, index == first)?;
        }
        Ok(())
    }

    fn draw_user(&mut self, user: u32, first: bool) -> Result<(), AllocError> {
        let words = if first { ", used by " } else { ", " };
        self.out.extend_from_slice(words.as_bytes())?;
        append_decimal(self.out, u64::from(user))
    }

    fn draw_binding(
        &mut self,
        alloc: Global,
        number: u32,
        scope: u32,
        binding: Binding,
    ) -> Result<(), AllocError> {
        self.out
            .extend_from_slice(bind_words(binding.kind).as_bytes())?;
        self.out.extend_from_slice(b" ")?;
        let merged = self.merged;
        append_name(alloc, self.out, text_at(&merged.texts, binding.atom))?;
        self.out.extend_from_slice(b" (")?;
        append_slot(self.out, binding.slot)?;
        if let Slot::Env(slot) = binding.slot {
            self.draw_users(number, scope, slot)?;
        }
        self.out.extend_from_slice(b")\n")?;
        Ok(())
    }

    /// Draws a scope, whose line hangs on that of the function of this level, and its bindings.
    fn draw_scope(
        &mut self,
        alloc: Global,
        level: usize,
        number: u32,
        index: u32,
        scope: &ScopeData,
        last: bool,
    ) -> Result<(), AllocError> {
        self.draw_branch(level, last)?;
        self.out
            .extend_from_slice(scope_words(scope.kind).as_bytes())?;
        self.out.extend_from_slice(b"\n")?;
        self.keep_level(level, !last)?;
        for (place, binding) in scope.bindings.iter().enumerate() {
            let is_last = place.saturating_add(1) == scope.bindings.len();
            self.draw_branch(level.saturating_add(1), is_last)?;
            self.draw_binding(alloc, number, index, *binding)?;
        }
        Ok(())
    }

    /// Draws the scopes with bindings of the function of this number, which has so many functions around it.
    fn draw_scopes(
        &mut self,
        alloc: Global,
        number: u32,
        part: &FunctionStencil,
    ) -> Result<(), AllocError> {
        let level = self.layout.level(number as usize);
        let has_inner = self.layout.has_inner(number as usize);
        let mut left = shown_scopes(part);
        let mut index = 0u32;
        for scope in &part.scopes {
            if !scope.bindings.is_empty() {
                left = left.saturating_sub(1);
                let last = left == 0 && !has_inner;
                self.draw_scope(alloc, level, number, index, scope, last)?;
            }
            index = index.saturating_add(1);
        }
        Ok(())
    }

    /// Draws how a function or the script is called, its place, and why its scopes are not drawn.
    fn draw_head<S: Source>(
        &mut self,
        alloc: Global,
        number: u32,
        source: &S,
        extent: Extent,
        part: Part<'_>,
    ) -> Result<(), AllocError> {
        append_script(alloc, self.out, self.merged, number)?;
        append_extent(self.out, b"  ", source, extent)?;
        let why = match part {
            Part::Compiled(_) => "",
            Part::Lazy => "  not compiled",
            Part::Folded => "  folded",
        };
        self.out.extend_from_slice(why.as_bytes())?;
        self.out.extend_from_slice(b"\n")?;
        Ok(())
    }

    /// Draws the script itself and its scopes.
    fn draw_top<S: Source>(
        &mut self,
        alloc: Global,
        source: &S,
        shown: Option<Shown>,
    ) -> Result<(), AllocError> {
        let merged = self.merged;
        let part = Part::of(shown, Some(&merged.top));
        self.draw_head(alloc, 0, source, merged.top.extent, part)?;
        self.draw_part(alloc, 0, part)
    }

    /// Draws the scopes of what is compiled and not folded.
    fn draw_part(&mut self, alloc: Global, number: u32, part: Part<'_>) -> Result<(), AllocError> {
        match part {
            Part::Compiled(part) => self.draw_scopes(alloc, number, part),
            Part::Lazy | Part::Folded => Ok(()),
        }
    }

    /// Draws the function of this number and its scopes.
    fn draw_function<S: Source>(
        &mut self,
        alloc: Global,
        number: u32,
        source: &S,
        extent: Extent,
        part: Part<'_>,
    ) -> Result<(), AllocError> {
        let level = self.layout.level(number as usize);
        let last = self.layout.is_last(number as usize);
        let outer = level.saturating_sub(1);
        self.draw_branch(outer, last)?;
        self.draw_head(alloc, number, source, extent, part)?;
        self.keep_level(outer, !last)?;
        self.draw_part(alloc, number, part)
    }
}

/// Appends the tree of a script's functions, scopes and bindings: at each function its name or how it is written, and its place
/// where the source text is at hand; at each binding how it is declared, where it lives, and by which functions inside it is used.
/// Scopes without bindings are left out. `shown` says of the script and of each function in order of number what is shown of it; behind its
/// end all is.
///
/// It takes time in proportion to the code and to what is drawn, and is an error only where memory runs out.
pub fn scope_tree<S: Source>(
    alloc: Global,
    merged: &MergedStencil,
    source: &S,
    shown: &[Shown],
    out: &mut Vec<u8>,
) -> Result<(), AllocError> {
    let uses = Uses::of(alloc, merged)?;
    let layout = Layout::of(alloc, merged, shown)?;
    let mut tree = Tree {
        merged,
        uses: &uses,
        layout: &layout,
        out,
        goes_on: Vec::new(alloc),
    };
    tree.draw_top(alloc, source, shown.first().copied())?;
    let mut number = 0u32;
    for (index, lazy) in merged.records.iter().enumerate() {
        number = number.saturating_add(1);
        let one = shown.get(index.saturating_add(1)).copied();
        let compiled = match merged.entries.get(index) {
            Some(Entry::Compiled(part)) => Some(part),
            _ => None,
        };
        if one != Some(Shown::Hidden) {
            tree.draw_function(alloc, number, source, lazy.extent, Part::of(one, compiled))?;
        }
    }
    Ok(())
}
