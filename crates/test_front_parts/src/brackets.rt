//! Partners of brackets and of parts of templates, and the first bracket that has none.

use script_grammar::brackets::Brackets;
use script_grammar::compact::{CompactToken, Offset, TokenValue};
use script_grammar::token::{Kind, mark};
use std::test::Fail;

/// `f ( { } [ ] )`, then the parts of a template around `( )`, then `( [ ) ]`.
const KINDS: [Kind; 17] = [
    Kind::Name,
    Kind::Mark(mark::OPEN_PAREN),
    Kind::Mark(mark::OPEN_BRACE),
    Kind::Mark(mark::CLOSE_BRACE),
    Kind::Mark(mark::OPEN_BRACKET),
    Kind::Mark(mark::CLOSE_BRACKET),
    Kind::Mark(mark::CLOSE_PAREN),
    Kind::TemplateHead,
    Kind::Mark(mark::OPEN_PAREN),
    Kind::Mark(mark::CLOSE_PAREN),
    Kind::TemplateMiddle,
    Kind::TemplateTail,
    Kind::Mark(mark::OPEN_PAREN),
    Kind::Mark(mark::OPEN_BRACKET),
    Kind::Mark(mark::CLOSE_PAREN),
    Kind::Mark(mark::CLOSE_BRACKET),
    Kind::End,
];

/// Tokens of them, each with its partner.
const PARTNERS: [(u32, Option<u32>); 10] = [
    (0, None),
    (1, Some(6)),
    (3, Some(2)),
    (4, Some(5)),
    (7, Some(10)),
    (10, Some(11)),
    (11, Some(10)),
    (12, None),
    (15, None),
    (18, None),
];

fn token(kind: Kind) -> CompactToken {
    CompactToken::new(
        kind,
        false,
        TokenValue::new(0),
        Offset::new(0),
        Offset::new(0),
    )
}

#[test]
fn brackets_have_partners_up_to_a_misfit(rt: HostRuntime) -> Result<(), Fail> {
    let mut tokens = [token(Kind::End); 17];
    for (place, kind) in KINDS.iter().enumerate() {
        if place < 17 {
            tokens[place] = token(*kind);
        }
    }
    let brackets = Brackets::of(rt.alloc(), &tokens)?;
    for (number, partner) in PARTNERS {
        assert!(rt; brackets.partner(number) == partner);
    }
    assert!(rt; brackets.stop() == 14);
    Ok(())
}
