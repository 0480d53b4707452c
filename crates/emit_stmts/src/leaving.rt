//! The jumps of `break` and `continue`, and what leaves the frames between.
ghost use Rattle.std.specs.Prelude.{◌≡◌, ℕ, List, OnOk, bytes_eq};
ghost use Rattle.stencil_data.specs.StandsFor.{text_at};
ghost use Rattle.emit_exprs.specs.Sites.{EmitsAt};
ghost use Rattle.emit_stmts.specs.Frames as model;
ghost use Rattle.emit_stmts.specs.Leaving.{Exits, Leaves, goal_in};
ghost use Rattle.emit_stmts.specs.Positions.{position_of, frame_in, frames_in};

use crate::frames::Frame;
use crate::scoping::leave_scope;
use crate::stmt_context::StmtContext;
use bytecode_buf::{Aim, CodeBuf, Op, Wait, jump_to};
use emit_exprs::steps::plain;
use scope_analysis::{same_units, units_of};
use script_grammar::tree::Ident;
use std::alloc::AllocError;
use stencil_data::Text;

/// Where a jump leaves to: the end of a statement or the next turn of a loop, that with this label, or the innermost one.
#[derive(Clone, Copy)]
pub enum Goal {
    Out(Option<Ident>),
    Again(Option<Ident>),
}

// What leaves one frame.
#[tactic(auto, using(emit_exprs::proofs::Singles::emits_nothing))]
fn exit(out: &mut CodeBuf, site: &StmtContext, frame: Frame) -> Result<(), AllocError>
    ensures { OnOk result (EmitsAt site.now.exprs out.old out.new
        (model.exit (position_of site.now).scopes (frame_in site.now.exprs.texts.now frame))) }
{
    match frame {
        Frame::Loop => Ok(()),
        Frame::KeysLoop => Ok(plain(out, Op::EndIter)?),
        Frame::Switching => Ok(()),
        Frame::Labelled(_) => Ok(()),
        Frame::Entered(number) => Ok(leave_scope(out, site, number)?),
    }
}

/// What leaves all of these frames.
pub fn exits(out: &mut CodeBuf, site: &StmtContext, frames: &[Frame]) -> Result<(), AllocError>
    ensures { OnOk result (Exits site.now out.old out.new frames.now) }
{
    for frame in frames {
        exit(out, site, *frame)?;
    }
    Ok(())
}

fn same_text(texts: &[Text], one: u32, two: u32) -> bool
    ensures { result ≡ bytes_eq (text_at texts.now one) (text_at texts.now two) }
{
    same_units(units_of(texts, one), units_of(texts, two))
}

// Whether this is a label of the loop inside these frames.
fn is_labelled(texts: &[Text], atom: u32, frames: &[Frame]) -> bool
    ensures { result ≡ model.is_labelled (text_at texts.now atom) (frames_in texts.now frames.now) }
{
    for frame in frames {
        match *frame {
            Frame::Loop => return false,
            Frame::KeysLoop => return false,
            Frame::Switching => return false,
            Frame::Labelled(label) => {
                if same_text(texts, label, atom) {
                    return true;
                }
            }
            Frame::Entered(_) => {}
        }
    }
    false
}

// Whether the jump goes to this frame, which stands inside these.
fn is_meant(texts: &[Text], goal: Goal, frame: Frame, outer: &[Frame]) -> bool
    ensures { result ≡ model.is_meant (goal_in texts.now goal) (frame_in texts.now frame) (frames_in texts.now outer.now) }
{
    match goal {
        Goal::Out(None) => match frame {
            Frame::Loop => true,
            Frame::KeysLoop => true,
            Frame::Switching => true,
            Frame::Labelled(_) => false,
            Frame::Entered(_) => false,
        },
        Goal::Out(Some(name)) => match frame {
            Frame::Labelled(label) => same_text(texts, label, name.atom),
            _ => false,
        },
        Goal::Again(None) => match frame {
            Frame::Loop => true,
            Frame::KeysLoop => true,
            Frame::Switching => false,
            Frame::Labelled(_) => false,
            Frame::Entered(_) => false,
        },
        Goal::Again(Some(name)) => match frame {
            Frame::Loop => is_labelled(texts, name.atom, outer),
            Frame::KeysLoop => is_labelled(texts, name.atom, outer),
            _ => false,
        },
    }
}

// Where it lands at a frame with n frames around.
fn goal_aim(goal: Goal, level: usize) -> Aim
    ensures { (texts : List (List ℕ)) → result ≡ model.goal_aim (goal_in texts goal) level }
{
    match goal {
        Goal::Out(_) => Aim::Break(level),
        Goal::Again(_) => Aim::Continue(level),
    }
}

/// Leaves these frames up to the goal, and jumps there.
pub fn leaving(
    out: &mut CodeBuf,
    waits: &mut Vec<Wait>,
    site: &StmtContext,
    goal: Goal,
    frames: &[Frame],
) -> Result<(), AllocError>
    ensures { OnOk result (Leaves site.now out.old waits.old.items out.new waits.new.items goal frames.now) }
{
    match frames.split_first() {
        Some((frame, outer)) => {
            if is_meant(site.exprs.texts, goal, *frame, outer) {
                Ok(jump_to(out, Op::Goto, goal_aim(goal, outer.len()), waits)?)
            } else {
                exit(out, site, *frame)?;
                leaving(out, waits, site, goal, outer)?;
                Ok(())
            }
        }
        None => Ok(()),
    }
}
