//! How a text of the user's is printed.

use crate::Shown;
use std::test::Fail;

#[test]
fn control_characters_are_escaped(rt: HostRuntime) -> Result<(), Fail> {
    for (text, shown) in [
        ("plain.guest", "plain.guest"),
        ("two words \u{fc}", "two words \u{fc}"),
        ("a\nb\tc", "a\\nb\\tc"),
        ("\u{1b}[2J\u{7f}\u{85}", "\\u{1b}[2J\\u{7f}\\u{85}"),
    ] {
        let printed = format!(in rt.alloc(); "{}", Shown { text })?;
        assert_eq!(rt; printed.as_str(), shown);
    }
    Ok(())
}
