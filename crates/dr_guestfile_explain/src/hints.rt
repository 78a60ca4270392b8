use crate::found::Found;
use dr_guestfile::{KEYWORDS, Keyword};
use dr_types::split_space;

/// What a text begins with that some editors write in front of it. It can't be seen.
const BYTE_ORDER_MARK: &[u8] = b"\xEF\xBB\xBF";

/// A space that looks like another.
const NO_BREAK_SPACE: &[u8] = b"\xC2\xA0";

/// How many digits the longest number has.
const MOST_DIGITS: usize = 20;

/// The word is a keyword but for capital letters in it.
fn is_miscased(word: &[u8]) -> bool {
    let is_keyword = KEYWORDS
        .iter()
        .any(|keyword| keyword.spelling().eq_ignore_ascii_case(word));
    is_keyword && Keyword::of(word).is_none()
}

/// The word has a no-break space in it.
fn has_no_break_space(word: &[u8]) -> bool {
    word.windows(NO_BREAK_SPACE.len())
        .any(|bytes| bytes == NO_BREAK_SPACE)
}

fn has_carriage_return(word: &[u8]) -> bool {
    word.contains(&b'\r')
}

/// The word has digits alone, and more of them than any number.
fn is_long_number(word: &[u8]) -> bool {
    word.len() > MOST_DIGITS && word.iter().all(|byte| byte.is_ascii_digit())
}

/// The word without the prefix that names space 1.
fn after_prefix(word: &[u8]) -> &[u8] {
    split_space(2, word).1
}

/// A word that stands where the line has a number is too long.
fn has_long_number(found: &Found<'_>) -> bool {
    match found.keyword() {
        Some(Keyword::Slot) => [after_prefix(found.second), found.third, found.fourth]
            .iter()
            .any(|word| is_long_number(word)),
        _ => is_long_number(after_prefix(found.second)),
    }
}

/// What is added to the text on a line that looks right, or nearly: what can't be seen in it, or
/// what other files may have and this may not. Empty where nothing of this is there.
pub fn hint(found: &Found<'_>) -> &'static str {
    let words = found.words();
    if found.first.starts_with(BYTE_ORDER_MARK) {
        "; a byte order mark, which can't be seen, stands at its start"
    } else if words.iter().any(|word| has_no_break_space(word)) {
        "; a no-break space is in it, and only spaces and tabs part words"
    } else if words.iter().any(|word| has_carriage_return(word)) {
        "; a carriage return is in it, which may stand only before a line feed"
    } else if words[1..].iter().any(|word| word.starts_with(b"#")) {
        "; a comment needs a line of its own"
    } else if is_miscased(found.first) {
        "; keywords are written in small letters"
    } else if has_long_number(found) {
        "; a number has at most 20 digits"
    } else {
        ""
    }
}
