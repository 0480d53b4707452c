//! Too many parameters or arguments (rule 13).

ghost use Rattle.std.specs.Prelude.{◌≡◌};
ghost use Rattle.parse_early_handler.specs.Firsts.{many_args, many_params};

use crate::nodes::ExprErrors;
use parse_track::region::Early;
use script_grammar::node::NodeParam;

/// How many parameters or arguments there may be.
const LIMIT: usize = 65535;

/// The early error at the first argument that is one too many.
pub fn many_args(items: &[ExprErrors]) -> Option<Early>
    ensures { result ≡ many_args items.now }
{
    match items.get(LIMIT) {
        Some(item) => Some(Early {
            offset: item.start,
            rule: 13,
        }),
        None => None,
    }
}

/// The early error at the first parameter that is one too many.
pub fn many_params<E>(params: &[NodeParam<E>]) -> Option<Early>
    ensures { result ≡ many_params params.now }
{
    match params.get(LIMIT) {
        Some(param) => Some(Early {
            offset: param.name.at,
            rule: 13,
        }),
        None => None,
    }
}
