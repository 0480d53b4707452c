//! Try statements: what is guarded, and what is caught.
ghost use Rattle.std.specs.Prelude.{◌≡◌, ℕ, ◌<◌, ◌%◌, ◌^◌, ◌++◌, ◌∷◌, [], List, OnOk, IfOk, vec_len, length};
ghost use Rattle.bytecode_buf.specs.Appends.{numbered};
ghost use Rattle.bytecode_buf.specs.Command as command;
ghost use Rattle.bytecode_buf.specs.Emits.{Emits};
ghost use Rattle.bytecode_buf.specs.Layout.{laid};
ghost use Rattle.emit_exprs.specs.Sites.{EmitsAt, scene_of, text_in};
ghost use Rattle.emit_exprs.specs.Whole.{just, whole};
ghost use Rattle.emit_stmts.specs.Frames as around;
ghost use Rattle.emit_stmts.specs.Positions.{frame_in, frames_in};
ghost use Rattle.emit_stmts.specs.Stmts as code;
ghost use Rattle.emit_stmts.specs.Trying.{ended};

use crate::draft::Draft;
use crate::frames::Frame;
use crate::functions::initializing;
use bytecode_buf::{CodeBuf, Op};
use emit_exprs::Site;
use emit_exprs::steps::plain;
use std::alloc::AllocError;
use stencil_data::TryNote;

// The values that a frame keeps on the stack.
fn kept_by(frame: Frame) -> u32
    ensures { (texts : List (List ℕ)) → result ≡ around.kept_values (frame_in texts frame ∷ []) }
{
    match frame {
        Frame::Loop => 0,
        Frame::KeysLoop => 2,
        Frame::Switching => 0,
        Frame::Labelled(_) => 0,
        Frame::Entered(_) => 0,
    }
}

// The values that the frames keep on the stack, in 32 bits.
fn kept_values(frames: &[Frame]) -> u32
    ensures { (texts : List (List ℕ)) → result ≡ around.kept_values (frames_in texts frames.now) % 2 ^ 32 }
{
    match frames.split_first() {
        Some((frame, outer)) => kept_by(*frame).wrapping_add(kept_values(outer)),
        None => 0,
    }
}

/// The Try of a block inside these frames, and its note, which is still open. Answers the number of the note.
pub fn open_try(out: &mut Draft, frames: &[Frame]) -> Result<usize, AllocError>
    ensures code { OnOk result (out.new.code ≡ out.old.code ++ laid (numbered Op.Try 0)) }
    ensures number { IfOk result (λ number. number ≡ length out.old.notes.items) }
    ensures notes { OnOk result ((texts : List (List ℕ))
        → out.new.notes.items ≡ out.old.notes.items
        ++ record { start = length out.new.code; end = length out.new.code; depth = around.kept_values (frames_in texts frames.now) % 2 ^ 32 } ∷ []) }
    ensures next { OnOk result (out.new.next ≡ out.old.next) }
{
    let number = out.notes.len();
    out.code.put(Op::Try, 0, 0)?;
    let start = out.code.len() as u64;
    let depth = kept_values(frames);
    out.notes.push(TryNote {
        start,
        end: start,
        depth,
    })?;
    Ok(number)
}

/// Ends what the note with this number guards.
pub fn close_try(out: &mut Draft, number: usize)
    requires { number < length out.old.notes.items }
    ensures code { out.new.code ≡ out.old.code }
    ensures notes { out.new.notes.items ≡ ended (length out.old.code) number out.old.notes.items }
    ensures next { out.new.next ≡ out.old.next }
{
    let end = out.code.len() as u64;
    let note = out.notes[number];
    out.notes[number] = TryNote {
        start: note.start,
        end,
        depth: note.depth,
    };
}

/// What is thrown, dropped.
pub fn dropped(out: &mut CodeBuf) -> Result<(), AllocError>
    ensures { OnOk result ((texts : List (List ℕ)) → Emits texts out.old out.new (whole (command.plain Op.Exception ∷ command.plain Op.Pop ∷ []))) }
{
    plain(out, Op::Exception)?;
    plain(out, Op::Pop)?;
    Ok(())
}

/// What is thrown, into the parameter with this atom.
pub fn caught(out: &mut CodeBuf, site: &Site, atom: u32) -> Result<(), AllocError>
    ensures { OnOk result (EmitsAt site.now out.old out.new
        (just Op.Exception ++ code.initializing (scene_of site.now) (text_in site.now atom) ++ just Op.Pop)) }
{
    plain(out, Op::Exception)?;
    initializing(out, site, atom)?;
    plain(out, Op::Pop)?;
    Ok(())
}
