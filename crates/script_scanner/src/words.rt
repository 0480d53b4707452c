//! Words: the reserved words.
ghost use Rattle.std.specs.Prelude.{◌≡◌, ◌<◌, find, option_map, length};
ghost use Rattle.std.specs.Str.{bytes_eq};
ghost use Rattle.script_scanner.specs.Words.{word_at, word_from, word_index};

use script_grammar::token::word;

/// Whether a text is this word. Most texts that are not have another length. The word is known where this is called, so each of its
/// letters is compared without a loop.
#[inline]
#[tactic(auto, using(crate::proofs::WordLemmas::other_length, crate::proofs::WordLemmas::letter_more, crate::proofs::WordLemmas::letter_other, crate::proofs::WordLemmas::letters_all))]
fn is_text(text: &[u16], word: &[u8]) -> bool
    ensures { result ≡ bytes_eq text.now word.now }
{
    if text.len() != word.len() {
        return false;
    }
    for at in 0..word.len() {
        if text[at] != u16::from(word[at]) {
            return false;
        }
    }
    true
}

fn word_with_b(text: &[u16]) -> Option<u8>
    ensures { result ≡ option_map word_index (word_from 98 text.now) }
{
    if is_text(text, b"break") {
        Some(word::BREAK)
    } else {
        None
    }
}

fn word_with_c(text: &[u16]) -> Option<u8>
    ensures { result ≡ option_map word_index (word_from 99 text.now) }
{
    if is_text(text, b"case") {
        Some(word::CASE)
    } else if is_text(text, b"catch") {
        Some(word::CATCH)
    } else if is_text(text, b"class") {
        Some(word::CLASS)
    } else if is_text(text, b"const") {
        Some(word::CONST)
    } else if is_text(text, b"continue") {
        Some(word::CONTINUE)
    } else {
        None
    }
}

fn word_with_d(text: &[u16]) -> Option<u8>
    ensures { result ≡ option_map word_index (word_from 100 text.now) }
{
    if is_text(text, b"debugger") {
        Some(word::DEBUGGER)
    } else if is_text(text, b"default") {
        Some(word::DEFAULT)
    } else if is_text(text, b"delete") {
        Some(word::DELETE)
    } else if is_text(text, b"do") {
        Some(word::DO)
    } else {
        None
    }
}

fn word_with_e(text: &[u16]) -> Option<u8>
    ensures { result ≡ option_map word_index (word_from 101 text.now) }
{
    if is_text(text, b"else") {
        Some(word::ELSE)
    } else if is_text(text, b"enum") {
        Some(word::ENUM)
    } else if is_text(text, b"export") {
        Some(word::EXPORT)
    } else if is_text(text, b"extends") {
        Some(word::EXTENDS)
    } else {
        None
    }
}

fn word_with_f(text: &[u16]) -> Option<u8>
    ensures { result ≡ option_map word_index (word_from 102 text.now) }
{
    if is_text(text, b"false") {
        Some(word::FALSE)
    } else if is_text(text, b"finally") {
        Some(word::FINALLY)
    } else if is_text(text, b"for") {
        Some(word::FOR)
    } else if is_text(text, b"function") {
        Some(word::FUNCTION)
    } else {
        None
    }
}

fn word_with_i(text: &[u16]) -> Option<u8>
    ensures { result ≡ option_map word_index (word_from 105 text.now) }
{
    if is_text(text, b"if") {
        Some(word::IF)
    } else if is_text(text, b"implements") {
        Some(word::IMPLEMENTS)
    } else if is_text(text, b"import") {
        Some(word::IMPORT)
    } else if is_text(text, b"in") {
        Some(word::IN)
    } else if is_text(text, b"instanceof") {
        Some(word::INSTANCEOF)
    } else if is_text(text, b"interface") {
        Some(word::INTERFACE)
    } else {
        None
    }
}

fn word_with_l(text: &[u16]) -> Option<u8>
    ensures { result ≡ option_map word_index (word_from 108 text.now) }
{
    if is_text(text, b"let") {
        Some(word::LET)
    } else {
        None
    }
}

fn word_with_n(text: &[u16]) -> Option<u8>
    ensures { result ≡ option_map word_index (word_from 110 text.now) }
{
    if is_text(text, b"new") {
        Some(word::NEW)
    } else if is_text(text, b"null") {
        Some(word::NULL)
    } else {
        None
    }
}

fn word_with_p(text: &[u16]) -> Option<u8>
    ensures { result ≡ option_map word_index (word_from 112 text.now) }
{
    if is_text(text, b"package") {
        Some(word::PACKAGE)
    } else if is_text(text, b"private") {
        Some(word::PRIVATE)
    } else if is_text(text, b"protected") {
        Some(word::PROTECTED)
    } else if is_text(text, b"public") {
        Some(word::PUBLIC)
    } else {
        None
    }
}

fn word_with_r(text: &[u16]) -> Option<u8>
    ensures { result ≡ option_map word_index (word_from 114 text.now) }
{
    if is_text(text, b"return") {
        Some(word::RETURN)
    } else {
        None
    }
}

fn word_with_s(text: &[u16]) -> Option<u8>
    ensures { result ≡ option_map word_index (word_from 115 text.now) }
{
    if is_text(text, b"static") {
        Some(word::STATIC)
    } else if is_text(text, b"super") {
        Some(word::SUPER)
    } else if is_text(text, b"switch") {
        Some(word::SWITCH)
    } else {
        None
    }
}

fn word_with_t(text: &[u16]) -> Option<u8>
    ensures { result ≡ option_map word_index (word_from 116 text.now) }
{
    if is_text(text, b"this") {
        Some(word::THIS)
    } else if is_text(text, b"throw") {
        Some(word::THROW)
    } else if is_text(text, b"true") {
        Some(word::TRUE)
    } else if is_text(text, b"try") {
        Some(word::TRY)
    } else if is_text(text, b"typeof") {
        Some(word::TYPEOF)
    } else {
        None
    }
}

fn word_with_v(text: &[u16]) -> Option<u8>
    ensures { result ≡ option_map word_index (word_from 118 text.now) }
{
    if is_text(text, b"var") {
        Some(word::VAR)
    } else if is_text(text, b"void") {
        Some(word::VOID)
    } else {
        None
    }
}

fn word_with_w(text: &[u16]) -> Option<u8>
    ensures { result ≡ option_map word_index (word_from 119 text.now) }
{
    if is_text(text, b"while") {
        Some(word::WHILE)
    } else if is_text(text, b"with") {
        Some(word::WITH)
    } else {
        None
    }
}

fn word_with_y(text: &[u16]) -> Option<u8>
    ensures { result ≡ option_map word_index (word_from 121 text.now) }
{
    if is_text(text, b"yield") {
        Some(word::YIELD)
    } else {
        None
    }
}

/// The index of the word that a text is, if it is one.
pub fn word_at(text: &[u16]) -> Option<u8>
    ensures { result ≡ option_map word_index (word_at text.now) }
{
    match text.split_first() {
        None => None,
        Some((first, _)) => word_with(*first, text),
    }
}

/// The same, of a text that begins with this letter.
fn word_with(first: u16, text: &[u16]) -> Option<u8>
    ensures { result ≡ option_map word_index (word_from first text.now) }
{
    match first {
        0x62 => word_with_b(text),
        0x63 => word_with_c(text),
        0x64 => word_with_d(text),
        0x65 => word_with_e(text),
        0x66 => word_with_f(text),
        0x69 => word_with_i(text),
        0x6C => word_with_l(text),
        0x6E => word_with_n(text),
        0x70 => word_with_p(text),
        0x72 => word_with_r(text),
        0x73 => word_with_s(text),
        0x74 => word_with_t(text),
        0x76 => word_with_v(text),
        0x77 => word_with_w(text),
        0x79 => word_with_y(text),
        _ => None,
    }
}
