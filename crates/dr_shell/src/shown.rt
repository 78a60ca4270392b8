use std::fmt;

/// A text of the user's. Where it is printed its control characters are escaped, so that no path
/// can move the cursor or break a line.
#[derive(Clone, Copy)]
pub struct Shown<'a> {
    pub text: &'a str,
}

impl fmt::Display for Shown<'_> {
    fn fmt<W: fmt::Write>(&self, f: &mut fmt::Formatter<W>) -> fmt::Result {
        for character in self.text.chars() {
            if character.is_control() {
                write!(f, "{}", character.escape_default())?;
            } else {
                f.write_char(character)?;
            }
        }
        Ok(())
    }
}
