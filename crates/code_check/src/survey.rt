//! The depths that are found at the offsets of code.

ghost use Rattle.std.specs.Prelude.{◌≡◌, ℕ, ◌+◌, ◌-◌, ◌*◌, ◌^◌, ◌<◌, ◌≤◌, false, slice_index_or, [], List, Some, None, IsSome, IfOk, IfErr};
ghost use Rattle.std.specs.Prelude.{IfSome, OnOk, length, replicate};
ghost use Rattle.bytecode_buf.specs.Machine as machine;
ghost use Rattle.code_check.specs.Catches.{Catches, CatchesAt, HasLanding, HasShape, StandsAt};
ghost use Rattle.code_check.specs.NoteIndex.{AreLinked, IsIndexed};
ghost use Rattle.code_check.specs.Survey.{Arrives, AreStarts, Blocked, Clashes, Goes, HasNoTable, IsAt, IsLookedAt, IsSearched, Lands};
ghost use Rattle.code_check.specs.Survey.{StopsFor, depth_at};

use crate::note_index::NoteIndex;
use crate::step::{Landing, step_of};
use bytecode_buf::decode_at;
use std::alloc::{AllocError, AllocFailed, Global};
use std::marker::Model;
use stencil_data::TryNote;

/// Why the search for a depth table ends without one.
#[derive(Clone, Copy)]
pub(crate) enum Stop {
    /// There is none.
    Unsound,
    /// Memory ran out.
    NoMemory,
}

impl From<AllocError> for Stop {
    ghost use Rattle.code_check.specs.declared.survey.Stop.TheVariants.{NoMemory as OutOfMemory};

    ghost from_gives = { λ _ e. e ≡ OutOfMemory };

    fn from(_fault: AllocError) -> Stop {
        Stop::NoMemory
    }
}

impl<T: Drop> From<AllocFailed<T>> for Stop {
    ghost use Rattle.code_check.specs.declared.survey.Stop.TheVariants.{NoMemory as OutOfMemory};

    ghost from_gives = { λ _ e. e ≡ OutOfMemory };

    fn from(_fault: AllocFailed<T>) -> Stop {
        Stop::NoMemory
    }
}

/// The depths that were found, one for an offset, and the offsets whose instructions have still to be looked at.
#[derive(Drop)]
pub(crate) struct Survey {
    depths: Vec<Option<u64>>,
    pending: Vec<usize>,
}

impl Model for Survey {
    ghost use Rattle.code_check.specs.Survey.{Found};

    ghost Value = { Found };

    ghost view = { λ survey. record { depths = survey.depths.items; pending = survey.pending.items } };
}

/// Whether an instruction starts at an offset, which may lie outside of the code.
fn starts_at(starts: &[bool], at: u64) -> bool
    ensures { result ≡ slice_index_or starts.now at false }
{
    starts.get(at as usize).copied().unwrap_or(false)
}

impl Survey {
    /// No depth, for code of this size.
    pub(crate) fn new(alloc: Global, size: usize) -> Result<Survey, AllocError>
        ensures { IfOk result (λ survey. survey ≡ record { depths = replicate size None; pending = [] }) }
    {
        Ok(Survey {
            depths: vec![in alloc; None; size]?,
            pending: Vec::new(alloc),
        })
    }

    /// Puts a state down. It stops where no instruction starts at the offset, or the offset has another depth.
    pub(crate) fn arrive(&mut self, starts: &[bool], at: u64, depth: u64) -> Result<(), Stop>
        requires { length starts.now ≡ length self.old.depths }
        ensures ok { OnOk result (Arrives starts.now (record { at = at; depth = depth }) self.old self.new) }
        ensures err { IfErr result (λ stop. StopsFor stop (Clashes starts.now (record { at = at; depth = depth }) self.old)) }
    {
        if !starts_at(starts, at) {
            return Err(Stop::Unsound);
        }
        let place = at as usize;
        match self.depths[place] {
            Some(known) if known == depth => Ok(()),
            Some(_) => Err(Stop::Unsound),
            None => {
                self.pending.push(place)?;
                self.depths[place] = Some(depth);
                Ok(())
            }
        }
    }

    /// Goes where an instruction may go that takes n values.
    fn land(
        &mut self,
        starts: &[bool],
        depth: u64,
        taken: u64,
        landing: Option<Landing>,
    ) -> Result<(), Stop>
        requires size { length starts.now ≡ length self.old.depths }
        requires taken { taken ≤ depth }
        requires fits { IfSome landing (λ l. depth - taken + l.given < 2 ^ 64) }
        ensures ok { OnOk result (Lands starts.now depth taken landing self.old self.new) }
        ensures err { IfErr result (λ stop. StopsFor stop (Blocked starts.now depth taken landing self.old)) }
    {
        match landing {
            None => Ok(()),
            Some(landing) => self.arrive(starts, landing.at, depth - taken + landing.given),
        }
    }

    /// Goes where a throw may go by the notes of a node that are no deeper than the stack.
    fn catch_at(
        &mut self,
        index: &mut NoteIndex,
        notes: &[TryNote],
        starts: &[bool],
        node: usize,
        depth: u64,
    ) -> Result<(), Stop>
        requires size { length starts.now ≡ length self.old.depths }
        requires node { node < length index.old.heads }
        requires linked { AreLinked index.old.entries }
        ensures shape { OnOk result (HasShape self.old self.new index.old index.new) }
        ensures ok { OnOk result ((code : List ℕ) (at : ℕ) (rows : ℕ → List TryNote)
            → StandsAt code notes.now starts.now node (record { at = at; depth = depth }) self.old index.old rows
            → CatchesAt code notes.now node depth self.old self.new rows index.new) }
        ensures err { IfErr result (λ stop. StopsFor stop
            ((code : List ℕ) (at : ℕ) (rows : ℕ → List TryNote)
            → StandsAt code notes.now starts.now node (record { at = at; depth = depth }) self.old index.old rows → HasNoTable code notes.now)) }
    {
        while let Some(note) = index.take(notes, node, depth) {
            self.arrive(starts, note.end, u64::from(note.depth))?;
        }
        Ok(())
    }

    /// Goes where a throw at a state may go.
    fn catch(
        &mut self,
        index: &mut NoteIndex,
        notes: &[TryNote],
        starts: &[bool],
        at: usize,
        depth: u64,
    ) -> Result<(), Stop>
        requires size { length starts.now ≡ length self.old.depths }
        requires inside { 2 * at < length index.old.heads }
        requires linked { AreLinked index.old.entries }
        ensures ok { OnOk result ((code : List ℕ) → IsAt code notes.now starts.now self.old (record { at = at; depth = depth })
            → IsIndexed notes.now (length code) (HasLanding self.old) index.old
            → Catches code notes.now (record { at = at; depth = depth }) self.old self.new index.new) }
        ensures err { IfErr result (λ stop. StopsFor stop
            ((code : List ℕ) → IsAt code notes.now starts.now self.old (record { at = at; depth = depth })
            → IsIndexed notes.now (length code) (HasLanding self.old) index.old → HasNoTable code notes.now)) }
    {
        let mut node = index.leaf(at);
        while node > 0 {
            self.catch_at(index, notes, starts, node, depth)?;
            node /= 2;
        }
        Ok(())
    }

    /// The depth at an offset that has one.
    fn depth_at(&self, at: usize) -> u64
        requires { IsSome (depth_at self.now.depths at) }
        ensures { depth_at self.now.depths at ≡ Some result }
    {
        match self.depths.get(at).copied().flatten() {
            Some(depth) => depth,
            None => unreachable!(),
        }
    }

    /// Looks at the instruction at a state that was found, and puts the states down to which it may lead.
    fn look(
        &mut self,
        index: &mut NoteIndex,
        code: &[u8],
        notes: &[TryNote],
        starts: &[bool],
        at: usize,
        depth: u64,
    ) -> Result<(), Stop>
        requires at { IsAt code.now notes.now starts.now self.old (record { at = at; depth = depth }) }
        requires indexed { IsIndexed notes.now (length code.now) (HasLanding self.old) index.old }
        ensures goes { OnOk result (Goes code.now notes.now self.old self.new) }
        ensures looked { OnOk result (IsLookedAt code.now notes.now self.new (record { at = at; depth = depth })) }
        ensures indexed { OnOk result (IsIndexed notes.now (length code.now) (HasLanding self.new) index.new) }
        ensures err { IfErr result (λ stop. StopsFor stop (HasNoTable code.now notes.now)) }
    {
        let Some(instr) = decode_at(code, at) else {
            return Err(Stop::Unsound);
        };
        let step = step_of(at, instr);
        if depth < step.taken {
            return Err(Stop::Unsound);
        }
        self.land(starts, depth, step.taken, step.next)?;
        self.land(starts, depth, step.taken, step.target)?;
        self.catch(index, notes, starts, at, depth)?;
        Ok(())
    }

    /// Looks at each instruction that is reached.
    pub(crate) fn search(
        &mut self,
        index: &mut NoteIndex,
        code: &[u8],
        notes: &[TryNote],
        starts: &[bool],
    ) -> Result<(), Stop>
        requires starts { AreStarts code.now starts.now }
        requires searched { IsSearched code.now notes.now self.old }
        requires indexed { IsIndexed notes.now (length code.now) (HasLanding self.old) index.old }
        ensures ok { OnOk result (machine.IsLeastTable code.now notes.now (depth_at self.new.depths)) }
        ensures err { IfErr result (λ stop. StopsFor stop (HasNoTable code.now notes.now)) }
    {
        while let Some(at) = self.pending.pop() {
            let depth = self.depth_at(at);
            self.look(index, code, notes, starts, at, depth)?;
        }
        Ok(())
    }

    /// The depths at the offsets.
    pub(crate) fn into_depths(self) -> Vec<Option<u64>>
        ensures { result.items ≡ self.depths }
    {
        let Survey { depths, pending: _ } = self;
        depths
    }
}
