// Code in the making, and the code of names in it.
ghost use Rattle.std.specs.Prelude.{◌≡◌, ◌^◌, ◌<◌, OnOk, length, slice_index_or, []};
ghost use Rattle.stencil_data.specs.Fits.{ChainFits, PlaceFits};
ghost use Rattle.bytecode_buf.specs.Emits.{Emits};
ghost use Rattle.emit_exprs.specs.Names as code;
ghost use Rattle.emit_exprs.specs.Rising.{Rises};
ghost use Rattle.emit_exprs.specs.TreeCode.{ExprCode};
ghost use Rattle.emit_exprs.specs.Whole.{whole};

use crate::exprs::emit_expr;
use crate::names::{base_at, init_at, read_at, write_at};
use crate::site::Site;
use crate::uses::Use;
use bytecode_buf::CodeBuf;
use script_grammar::tree::Expr;
use std::alloc::{AllocError, Global};
use stencil_data::{Chain, Extent, Place, Text};

/// Code in the making. Its atoms are indexes into `texts`, and the operand of a Lambda is an index into `inner`, which
/// is in order of rising start.
#[derive(Drop)]
pub struct Emit {
    pub code: CodeBuf,
    pub texts: Vec<Text>,
    pub inner: Vec<Extent>,
}

/// Appends the code that reads the name with this atom, which lives at this place.
///
/// After an error `out` holds a front of it and is only dropped.
pub fn read(out: &mut Emit, atom: u32, place: &Place) -> Result<(), AllocError>
    requires { PlaceFits place.now }
    ensures code { OnOk result (Emits out.old.texts.items out.old.code out.new.code
        (whole (code.read (slice_index_or out.old.texts.items atom []) place.now))) }
    ensures texts { out.new.texts ≡ out.old.texts }
    ensures inner { out.new.inner ≡ out.old.inner }
{
    read_at(&mut out.code, atom, place)?;
    Ok(())
}

/// Appends what stands below the value when the name is written: its base, where it is global, else nothing.
///
/// After an error `out` holds a front of it and is only dropped.
pub fn base(out: &mut Emit, atom: u32, place: &Place) -> Result<(), AllocError>
    ensures code { OnOk result (Emits out.old.texts.items out.old.code out.new.code
        (whole (code.base (slice_index_or out.old.texts.items atom []) place.now))) }
    ensures texts { out.new.texts ≡ out.old.texts }
    ensures inner { out.new.inner ≡ out.old.inner }
{
    base_at(&mut out.code, atom, place)?;
    Ok(())
}

/// Appends the code that writes the value on top of the stack to the name.
///
/// After an error `out` holds a front of it and is only dropped.
pub fn write(out: &mut Emit, atom: u32, place: &Place) -> Result<(), AllocError>
    requires { PlaceFits place.now }
    ensures code { OnOk result (Emits out.old.texts.items out.old.code out.new.code
        (whole (code.write (slice_index_or out.old.texts.items atom []) place.now))) }
    ensures texts { out.new.texts ≡ out.old.texts }
    ensures inner { out.new.inner ≡ out.old.inner }
{
    write_at(&mut out.code, atom, place)?;
    Ok(())
}

/// Appends the code that gives a lexical name or a catch parameter its first value, which is on top of the stack.
///
/// After an error `out` holds a front of it and is only dropped.
pub fn init(out: &mut Emit, atom: u32, place: &Place) -> Result<(), AllocError>
    requires { PlaceFits place.now }
    ensures code { OnOk result (Emits out.old.texts.items out.old.code out.new.code
        (whole (code.init (slice_index_or out.old.texts.items atom []) place.now))) }
    ensures texts { out.new.texts ≡ out.old.texts }
    ensures inner { out.new.inner ≡ out.old.inner }
{
    init_at(&mut out.code, atom, place)?;
    Ok(())
}

/// Appends the code of an expression whose value is wanted, under the scopes of this chain.
///
/// The functions directly in the expression have their extents in `out.inner`; the operand of a Lambda is the place of its
/// function there. The clause holds for a tree each of whose counts fits its operand, as those of all scripts do.
///
/// After an error `out` holds a front of it and is only dropped.
pub fn expr(alloc: Global, out: &mut Emit, tree: &Expr, chain: &Chain) -> Result<(), AllocError>
    requires chain { ChainFits 65000 chain.now }
    requires ordered { Rises 0 out.old.inner.items }
    requires few { length out.old.inner.items < 2 ^ 32 }
    ensures code { OnOk result (ExprCode chain.now out.old.inner.items out.old.texts.items out.old.code out.new.code tree.now) }
    ensures texts { out.new.texts ≡ out.old.texts }
    ensures inner { out.new.inner ≡ out.old.inner }
{
    let site = Site {
        alloc,
        chain,
        texts: &out.texts,
        inner: &out.inner,
    };
    emit_expr(&mut out.code, &site, tree, Use::Plainly)?;
    Ok(())
}
