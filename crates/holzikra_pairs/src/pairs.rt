//! Which functions of two scripts are pairs.

use crate::chains::chains_of;
use holzikra_edits::LineTable;
use std::alloc::{AllocError, Global};
use stencil_data::MergedStencil;

/// Which functions of two scripts are pairs, by their numbers. The scripts themselves are functions 0, and a pair.
#[derive(Drop)]
pub struct Pairs {
    /// For each function of the old script the one of the new script.
    pub new_of: Vec<Option<usize>>,
    /// For each function of the new script the one of the old script.
    pub old_of: Vec<Option<usize>>,
}

/// The functions of the old script that have no pair yet, by chain.
#[derive(Drop)]
struct Waiting {
    /// For each chain its first function.
    first: Vec<Option<usize>>,
    /// For each function the next one of the same chain.
    next: Vec<Option<usize>>,
}

impl Waiting {
    fn of(alloc: Global, count: usize, chains: &[usize]) -> Result<Waiting, AllocError> {
        let mut first: Vec<Option<usize>> = vec![in alloc; None; count]?;
        let mut next: Vec<Option<usize>> = vec![in alloc; None; chains.len()]?;
        for behind in 0..chains.len() {
            let number = chains.len() - 1 - behind;
            let chain = chains[number];
            if chain < first.len() && number < next.len() {
                next[number] = first[chain];
                first[chain] = Some(number);
            }
        }
        Ok(Waiting { first, next })
    }

    /// The first function of a chain, which waits no longer.
    fn take(&mut self, chain: usize) -> Option<usize> {
        let found = self.first.get(chain).copied().flatten()?;
        if chain < self.first.len() {
            self.first[chain] = self.next.get(found).copied().flatten();
        }
        Some(found)
    }
}

impl Pairs {
    fn join(&mut self, old: usize, new: usize) {
        if old < self.new_of.len() && new < self.old_of.len() {
            self.new_of[old] = Some(new);
            self.old_of[new] = Some(old);
        }
    }
}

/// The pairs of two scripts. It takes time in proportion to the functions and to their names, up to the logarithm of looking names
/// up, and is an error only where memory runs out.
pub fn pairs_of(
    alloc: Global,
    old: &MergedStencil,
    new: &MergedStencil,
) -> Result<Pairs, AllocError> {
    let mut table = LineTable::new(alloc);
    let old_chains = chains_of(alloc, &mut table, old)?;
    let new_chains = chains_of(alloc, &mut table, new)?;
    let mut waiting = Waiting::of(alloc, table.len(), &old_chains)?;
    let mut pairs = Pairs {
        new_of: vec![in alloc; None; old_chains.len()]?,
        old_of: vec![in alloc; None; new_chains.len()]?,
    };
    for (number, chain) in new_chains.iter().enumerate() {
        if let Some(found) = waiting.take(*chain) {
            pairs.join(found, number);
        }
    }
    Ok(pairs)
}
