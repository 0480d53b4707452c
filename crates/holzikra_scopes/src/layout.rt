//! Where functions stand in a tree.

use holzikra_finding::Shown;
use holzikra_names::around_functions;
use std::alloc::{AllocError, Global};
use stencil_data::MergedStencil;

/// For each function, the script being function 0: the one around it, how many are around it, and the last one directly in it that is
/// shown.
#[derive(Drop)]
pub(crate) struct Layout {
    pub around: Vec<u32>,
    pub levels: Vec<usize>,
    pub last_inner: Vec<Option<usize>>,
}

impl Layout {
    /// Where the functions stand of which something is shown.
    pub(crate) fn of(
        alloc: Global,
        merged: &MergedStencil,
        shown: &[Shown],
    ) -> Result<Layout, AllocError> {
        let around = around_functions(alloc, merged)?;
        let mut levels = vec![in alloc; 0usize; around.len()]?;
        let mut last_inner: Vec<Option<usize>> = vec![in alloc; None; around.len()]?;
        for number in 1..around.len() {
            let outer = around[number] as usize;
            if number < levels.len() && outer < levels.len() {
                levels[number] = levels[outer].saturating_add(1);
            }
            let hidden = shown.get(number).copied() == Some(Shown::Hidden);
            if outer < last_inner.len() && !hidden {
                last_inner[outer] = Some(number);
            }
        }
        Ok(Layout {
            around,
            levels,
            last_inner,
        })
    }

    /// How many functions are around one.
    pub(crate) fn level(&self, number: usize) -> usize {
        self.levels.get(number).copied().unwrap_or(0)
    }

    /// Whether a function is the last one of those directly in the one around it that are shown.
    pub(crate) fn is_last(&self, number: usize) -> bool {
        let outer = self.around.get(number).copied().unwrap_or(0);
        self.last_inner.get(outer as usize).copied().flatten() == Some(number)
    }

    /// Whether functions that are shown stand directly in one.
    pub(crate) fn has_inner(&self, number: usize) -> bool {
        self.last_inner.get(number).copied().flatten().is_some()
    }
}
