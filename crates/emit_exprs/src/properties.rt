// Properties of an object literal: what stands before and after their values.
ghost use Rattle.std.specs.Prelude.{◌≡◌, ℕ, List, OnOk, slice_index_or, [], bytes_eq};
ghost use Rattle.script_grammar.specs.Tree.{Stmts};
ghost use Rattle.script_grammar.specs.TreeOf.{key_of};
ghost use Rattle.bytecode_buf.specs.Emits.{Emits};
ghost use Rattle.emit_exprs.specs.Exprs as code;
ghost use Rattle.emit_exprs.specs.Sites.{text_in};
ghost use Rattle.emit_exprs.specs.TreeCode.{at_site, Closes, ClosesPair};

use crate::site::Site;
use crate::steps::{named, plain};
use bytecode_buf::{CodeBuf, Op};
use script_grammar::tree::Key;
use std::alloc::AllocError;

/// What a property is.
#[derive(Clone, Copy)]
pub enum Defines {
    Value,
    Getter,
    Setter,
}

// `__proto__`, the key that sets the prototype.
const PROTO: [u16; 9] = [95, 95, 112, 114, 111, 116, 111, 95, 95];

fn define_named(out: &mut CodeBuf, how: Defines, atom: u32) -> Result<(), AllocError>
    ensures { OnOk result ((texts : List (List ℕ)) → Emits texts out.old out.new (code.define_named how (slice_index_or texts atom []))) }
{
    match how {
        Defines::Value => Ok(named(out, Op::InitProp, atom)?),
        Defines::Getter => Ok(named(out, Op::InitPropGetter, atom)?),
        Defines::Setter => Ok(named(out, Op::InitPropSetter, atom)?),
    }
}

fn define_computed(out: &mut CodeBuf, how: Defines) -> Result<(), AllocError>
    ensures { OnOk result ((texts : List (List ℕ)) → Emits texts out.old out.new (code.define_computed how)) }
{
    match how {
        Defines::Value => Ok(plain(out, Op::InitElem)?),
        Defines::Getter => Ok(plain(out, Op::InitElemGetter)?),
        Defines::Setter => Ok(plain(out, Op::InitElemSetter)?),
    }
}

/// What defines a property with this key, after its value.
#[tactic(auto, using(crate::proofs::Keys::closes_word, crate::proofs::Keys::closes_str, crate::proofs::Keys::closes_number, crate::proofs::Keys::closes_computed))]
pub fn closing(out: &mut CodeBuf, site: &Site, key: &Key, how: Defines) -> Result<(), AllocError>
    ensures { OnOk result (Closes site.now out.old out.new how key.now) }
{
    match key {
        Key::Word(name) => Ok(define_named(out, how, name.atom)?),
        Key::Str(name) => Ok(define_named(out, how, name.atom)?),
        Key::Number { at: _, value: _ } => Ok(define_computed(out, how)?),
        Key::Computed(_) => Ok(define_computed(out, how)?),
    }
}

fn is_proto_text(site: &Site, atom: u32) -> bool
    ensures { result ≡ bytes_eq (text_in site.now atom) code.proto_text }
{
    match site.texts.get(atom as usize) {
        Some(text) => text.units() == PROTO.as_slice(),
        None => false,
    }
}

// Whether a pair with this key sets the prototype.
fn is_proto(site: &Site, key: &Key) -> bool
    ensures { (bodies : ℕ → Stmts) → result ≡ code.is_proto (key_of (at_site site.now bodies) key.now) }
{
    match key {
        Key::Word(name) => is_proto_text(site, name.atom),
        Key::Str(name) => is_proto_text(site, name.atom),
        Key::Number { at: _, value: _ } => false,
        Key::Computed(_) => false,
    }
}

/// What defines the property of a pair with this key, after its value.
pub fn closing_pair(out: &mut CodeBuf, site: &Site, key: &Key) -> Result<(), AllocError>
    ensures { OnOk result (ClosesPair site.now out.old out.new key.now) }
{
    if is_proto(site, key) {
        Ok(plain(out, Op::MutateProto)?)
    } else {
        Ok(closing(out, site, key, Defines::Value)?)
    }
}
