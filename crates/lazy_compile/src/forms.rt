//! How a function of each kind is written.

ghost use Rattle.std.specs.Prelude.{◌≡◌};
ghost use Rattle.lazy_compile.specs.Forms as written;

use script_grammar::token::FuncForm;
use stencil_data::FuncKind;

/// The form in which a function of this kind is written.
pub(crate) fn form_of(kind: FuncKind) -> FuncForm
    ensures { result ≡ written.form_of kind }
{
    match kind {
        FuncKind::Declared | FuncKind::Expression => FuncForm::Function,
        FuncKind::Arrow => FuncForm::Arrow,
        FuncKind::Method => FuncForm::Method,
        FuncKind::Getter => FuncForm::Getter,
        FuncKind::Setter => FuncForm::Setter,
    }
}
