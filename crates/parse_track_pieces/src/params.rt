//! The parameters of a function.

ghost use Rattle.std.specs.Prelude.{◌≡◌};
ghost use Rattle.parse_track_pieces.specs.Parts.{have_initializer};

use script_grammar::node::NodeParam;

/// Whether a parameter has an initializer.
pub fn has_initializer<E>(params: &[NodeParam<E>]) -> bool
    ensures { result ≡ have_initializer params.now }
{
    for param in params {
        match &param.value {
            Some(_) => return true,
            None => {}
        }
    }
    false
}
