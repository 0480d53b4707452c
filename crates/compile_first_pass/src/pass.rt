//! The pass: from the bytes of a file to its functions.

ghost use Rattle.std.specs.Prelude.{◌≡◌, ◌≤◌, ℕ, List, length, map, IfOk};
ghost use Rattle.script_grammar.specs.Interpretation.{Interpretation};
ghost use Rattle.script_grammar.specs.Lexeme.{lexeme_of};
ghost use Rattle.script_grammar.specs.Tree.{Stmts};
ghost use Rattle.session_specs.specs.Sources as source;
ghost use Rattle.parse_script.specs.declared.file_tokens.FileTokens.{FileTokens};
ghost use Rattle.parse_script.specs.Tokens.{AreTokensOf, IsSound};
ghost use Rattle.compile_first_pass.specs.Passes.{IsChecked, IsFirstPass, IsListed, IsOfSmallFile, IsRead, IsSkimmedFile};

use crate::skim::{SkimmedScript, Skims, skim};
use early_script_errors::check_told;
use parse_bodies::whole::Script;
use parse_early_handler::early::{first_of_bodies, sooner};
use parse_exprs::place::ParseFault;
use parse_function_list::{ListedFunction, functions_of};
use parse_script::{FileTokens, read_script, tokens_of};
use parse_track::region::{ClosedAt, Early, WellKnownAtoms};
use parse_track_pieces::Piece;
use script_grammar::compact::CompactToken;
use script_grammar::handler::Handler;
use std::alloc::{AllocError, Global};
use unit_text::DecodeFault;

/// A script without errors, read without trees.
#[derive(Drop)]
pub struct SyntaxScript {
    /// The tokens of its file.
    pub file: FileTokens,
    /// Its functions in order of number, from 1.
    pub functions: Vec<ListedFunction>,
    /// The names that inner functions close over.
    pub closed: Vec<ClosedAt>,
}

/// Why a file of source text is no script without errors: the first of these that stands.
#[derive(Clone, Copy, Debug)]
pub enum SourceFault {
    /// The bytes are not UTF-8.
    BadUtf8 {
        /// The length of their longest front that is UTF-8, in bytes.
        offset: u32,
    },
    /// The text is no script: none goes on with some token of it, and none before it is too deep.
    Unexpected {
        /// Where the token starts, in bytes.
        offset: u32,
    },
    /// Some token of the text is too deep, and scripts go on with all before it.
    TooDeep {
        /// Where the token starts, in bytes.
        offset: u32,
    },
    /// The script has an early error of ECMA-262, and no token of it is too deep.
    Early {
        /// Where the first of them stands, in bytes.
        offset: u32,
        /// The number of its rule, 1 to 14.
        rule: u8,
    },
}

/// A script whose functions are listed, and which is not yet checked.
#[derive(Drop)]
pub(crate) struct ListedScript {
    /// What its statements tell a track.
    pub top: Piece,
    /// What the bodies of its functions tell a track, in the order of the source, those inside a body after it.
    pub bodies: Vec<Piece>,
    /// Its functions in order of number, from 1.
    pub functions: Vec<ListedFunction>,
    /// Its first early error of a rule that looks at no region.
    pub first: Option<Early>,
}

/// A script without errors, but for the tokens of its file.
#[derive(Drop)]
pub(crate) struct CheckedScript {
    /// Its functions in order of number, from 1.
    pub functions: Vec<ListedFunction>,
    /// The names that inner functions close over.
    pub closed: Vec<ClosedAt>,
}

/// What a first pass over a file comes to.
#[derive(Drop)]
pub enum FirstPass {
    Script(SyntaxScript),
    Refused(SourceFault),
}

/// The offset where the token of this number starts; 0 after the last one.
pub fn start_of(tokens: &[CompactToken], token: u32) -> u32
    ensures { (get : ℕ) (set : ℕ) (texts : List (List ℕ)) → result ≡ source.start_of (map (lexeme_of get set texts) tokens.now) token }
{
    match tokens.get(token as usize) {
        None => 0,
        Some(token) => token.start(),
    }
}

/// Reads the script of a file by this handler, or finds why the file is none.
pub(crate) fn read_file<H: Handler + Drop>(
    alloc: Global,
    handler: H,
    file: &FileTokens,
) -> Result<Result<Script<H::B>, SourceFault>, AllocError>
    requires { IsSound file.now }
    ensures { IfOk result (IsRead H.shows_body file.now) }
{
    match read_script(alloc, file, handler) {
        Ok(script) => Ok(Ok(script)),
        Err(ParseFault::Unexpected { token }) => {
            let offset = start_of(&file.tokens, token);
            Ok(Err(SourceFault::Unexpected { offset }))
        }
        Err(ParseFault::TooDeep { token }) => {
            let offset = start_of(&file.tokens, token);
            Ok(Err(SourceFault::TooDeep { offset }))
        }
        Err(ParseFault::NoMemory) => Err(AllocError),
    }
}

/// Lists the functions of a script that was taken apart, and finds its first early error of a rule that looks at no region.
pub(crate) fn list_skimmed(alloc: Global, script: SkimmedScript) -> Result<ListedScript, AllocError>
    ensures { IfOk result (λ listed. (file : FileTokens) (items : Stmts) → IsSound file → IsSkimmedFile file script items → IsListed file items listed) }
{
    let SkimmedScript { top, bodies } = script;
    let listed = functions_of(alloc, top.found, bodies.found)?;
    let first = first_of_bodies(top.errors, &bodies.errors);
    let first = sooner(first, listed.late);
    Ok(ListedScript {
        top: top.told,
        bodies: bodies.told,
        functions: listed.functions,
        first,
    })
}

/// Checks a script that was taken apart, where the known words have these atoms. The file's tokens are not asked for.
fn check_skimmed(
    alloc: Global,
    known: WellKnownAtoms,
    script: SkimmedScript,
) -> Result<Result<CheckedScript, SourceFault>, AllocError>
    requires { IsOfSmallFile known script }
    ensures { IfOk result (λ checked. (file : FileTokens) (items : Stmts) → IsSound file → IsSkimmedFile file script items → file.known ≡ known
        → IsChecked file items checked) }
{
    let listed = list_skimmed(alloc, script)?;
    let ListedScript {
        top,
        bodies,
        functions,
        first,
    } = listed;
    let checked = check_told(alloc, known, top, bodies, first)?;
    if let Some(early) = checked.early {
        return Ok(Err(SourceFault::Early {
            offset: early.offset,
            rule: early.rule,
        }));
    }
    Ok(Ok(CheckedScript {
        functions,
        closed: checked.closed,
    }))
}

/// The pass over the tokens of a file.
fn pass_over<H: Skims + Drop>(
    alloc: Global,
    handler: H,
    file: FileTokens,
) -> Result<FirstPass, AllocError>
    requires sound { IsSound file }
    requires few { length file.tokens.items ≤ 16777216 }
    ensures { IfOk result (λ pass. (bytes : List ℕ) → AreTokensOf file (length bytes) bytes → IsFirstPass bytes pass) }
{
    let script = match read_file(alloc, handler, &file)? {
        Ok(script) => script,
        Err(fault) => return Ok(FirstPass::Refused(fault)),
    };
    let skimmed = skim::<H>(alloc, script)?;
    match check_skimmed(alloc, file.known, skimmed)? {
        Ok(CheckedScript { functions, closed }) => Ok(FirstPass::Script(SyntaxScript {
            file,
            functions,
            closed,
        })),
        Err(fault) => Ok(FirstPass::Refused(fault)),
    }
}

/// Reads the script of a file without trees, by this handler: its functions and its closed names, or why there is none.
/// Takes time and memory in proportion to the bytes.
pub fn first_pass<H: Skims + Drop>(
    alloc: Global,
    handler: H,
    bytes: &[u8],
) -> Result<FirstPass, AllocError>
    requires { length bytes.now ≤ 16777215 }
    ensures { IfOk result (IsFirstPass bytes.now) }
{
    match tokens_of(alloc, bytes) {
        Ok(file) => Ok(pass_over(alloc, handler, file)?),
        Err(DecodeFault::BadUtf8 { offset }) => {
            Ok(FirstPass::Refused(SourceFault::BadUtf8 { offset }))
        }
        Err(DecodeFault::NoMemory) => Err(AllocError),
    }
}
