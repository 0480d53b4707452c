//! The tests of a `switch`, and where their jumps land.
ghost use Rattle.std.specs.Prelude.{◌≡◌, ◌+◌, ◌<◌, ◌^◌, ℕ, [], true, OnOk, drop, length, map};
ghost use Rattle.script_grammar.specs.Interpretation.{Interpretation};
ghost use Rattle.script_grammar.specs.TreeLists.{clauses_of};
ghost use Rattle.script_grammar.specs.TreeOf.{clause_of};
ghost use Rattle.bytecode_buf.specs.Appends.{AllRoom};
ghost use Rattle.emit_stmts.specs.Apart.{is_clause, place_of};
ghost use Rattle.emit_stmts.specs.Clauses.{ClauseLanded, InOrder, TestLanded, waiting};
ghost use Rattle.emit_stmts.specs.HeadCode.{CaseWritten, CasesWritten};
ghost use Rattle.emit_stmts.specs.Stmts as code;

use crate::stmt_context::StmtContext;
use bytecode_buf::{Aim, CodeBuf, Op, Wait, jump_to, land};
use emit_exprs::steps::plain;
use emit_exprs::{Use, emit_expr};
use script_grammar::tree::{Clause, Expr};
use std::alloc::{AllocError, Global};

/// The jumps of a `switch` that wait for its clauses: those of the tests in the order of their clauses, the first
/// `landed` of which wait no more, and the one for where no test holds.
#[derive(Drop)]
pub struct ClauseJumps {
    pub tests: Vec<Wait>,
    pub landed: usize,
    pub otherwise: Vec<Wait>,
}

// The test of the clause at a place, which goes there where it holds.
fn case(
    out: &mut CodeBuf,
    waits: &mut Vec<Wait>,
    site: &StmtContext,
    place: usize,
    test: &Option<Expr>,
) -> Result<(), AllocError>
    ensures code { OnOk result (CaseWritten site.now out.old waits.old.items out.new waits.new.items place test.now) }
    ensures order { OnOk result (InOrder 0 place waits.old.items → InOrder 0 (place + 1) waits.new.items) }
{
    match test {
        Some(value) => {
            plain(out, Op::Dup)?;
            emit_expr(out, &site.exprs, value, Use::Plainly)?;
            plain(out, Op::StrictEq)?;
            jump_to(out, Op::Case, Aim::Clause(place), waits)?;
            Ok(())
        }
        None => Ok(()),
    }
}

/// The tests of all clauses.
pub fn cases(
    out: &mut CodeBuf,
    waits: &mut Vec<Wait>,
    site: &StmtContext,
    clauses: &[Clause],
) -> Result<(), AllocError>
    ensures code { OnOk result (CasesWritten site.now out.old waits.old.items out.new waits.new.items clauses.now) }
    ensures order { OnOk result (waits.old.items ≡ [] → InOrder 0 (length clauses.now) waits.new.items) }
{
    for (place, clause) in clauses.iter().enumerate() {
        case(out, waits, site, place, &clause.test)?;
    }
    Ok(())
}

/// Where a `switch` at this level goes when no test holds: to its default, or after it.
pub fn default_aim(level: usize, clauses: &[Clause]) -> Aim
    ensures is { (i : Interpretation) → result ≡ code.default_aim level 0 (clauses_of (map (clause_of i) clauses.now)) }
    ensures among { is_clause result ≡ true → place_of result < length clauses.now }
{
    for (place, clause) in clauses.iter().enumerate() {
        match &clause.test {
            Some(_) => {}
            None => return Aim::Clause(place),
        }
    }
    Aim::Break(level)
}

// Sends the next test's jump to the end of the code, where it waits for the clause at this place. Answers how many have
// landed then.
fn land_test(out: &mut CodeBuf, tests: &[Wait], landed: usize, place: usize) -> usize
    requires { AllRoom (length out.old) (drop landed tests.now) }
    ensures long { length out.new ≡ length out.old }
    ensures small { length out.old < 2 ^ 64 }
    ensures landed { (to : ℕ) → place < to → InOrder place to (drop landed tests.now)
        → TestLanded place to out.old (drop landed tests.now) out.new (drop result tests.now) }
{
    let end = out.len();
    match tests.get(landed) {
        Some(wait) => {
            if Aim::Clause(place).is(wait.aim) {
                out.patch(wait.at, end);
                landed + 1
            } else {
                landed
            }
        }
        None => landed,
    }
}

/// Puts a JumpTarget at the end of the code, to which the jumps go that wait for the clause at this place.
pub fn clause_target(
    alloc: Global,
    out: &mut CodeBuf,
    jumps: &mut ClauseJumps,
    place: usize,
) -> Result<(), AllocError>
    requires { AllRoom (length out.old) (waiting jumps.old) }
    ensures { OnOk result ((to : ℕ) → place < to → InOrder place to (drop jumps.old.landed jumps.old.tests.items)
        → ClauseLanded place to out.old jumps.old out.new jumps.new) }
{
    jumps.landed = land_test(out, &jumps.tests, jumps.landed, place);
    let mut held = Vec::new(alloc);
    land(out, &jumps.otherwise, Aim::Clause(place), &mut held)?;
    jumps.otherwise = held;
    plain(out, Op::JumpTarget)?;
    Ok(())
}
