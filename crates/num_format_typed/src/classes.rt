//! Classes of characters that people type for one another.
ghost use Rattle.std.specs.Prelude.{◌≡◌};
ghost use Rattle.num_format_typed.specs.Classes.{class_of, is_direction, is_of, is_space};

/// A class of characters.
#[derive(Clone, Copy)]
pub enum Class {
    /// Spaces: those that Unicode calls space separators, but for the one of Ogham.
    Space,
    /// The apostrophe, and what stands for it on keyboards and in print.
    Apostrophe,
    /// The comma, small and fullwidth ones too.
    Comma,
    /// The full stop, small and fullwidth ones too.
    Point,
    /// The minus sign, hyphens, and dashes no wider than a digit.
    Minus,
    /// Plus signs.
    Plus,
    /// Marks of the direction of writing, which are not seen.
    Direction,
    /// What counts for nothing at both ends of a text: spaces, marks of direction, the tab and ends of lines.
    End,
}

impl Class {
    /// Returns whether a character is of the class. Most that are asked about are digits, which are of none.
    #[inline(always)]
    pub fn has(self, c: char) -> bool
        ensures { result ≡ is_of self c }
    {
        if c.is_ascii_digit() {
            return false;
        }
        match self {
            Class::Space => is_space(c),
            Class::Apostrophe => matches!(
                c,
                '\'' | '`' | '\u{b4}' | '\u{2bc}' | '\u{2018}'..='\u{2019}' | '\u{ff07}'
            ),
            Class::Comma => matches!(c, ',' | '\u{fe50}' | '\u{ff0c}'),
            Class::Point => matches!(c, '.' | '\u{fe52}' | '\u{ff0e}'),
            Class::Minus => matches!(
                c,
                '-' | '\u{2010}'..='\u{2013}' | '\u{2212}' | '\u{fe63}' | '\u{ff0d}'
            ),
            Class::Plus => matches!(c, '+' | '\u{fe62}' | '\u{ff0b}'),
            Class::Direction => is_direction(c),
            Class::End => is_space(c) || is_direction(c) || matches!(c, '\t' | '\n' | '\r'),
        }
    }

    /// Returns the class of a character that a separator or a decimal mark may have, or `None` if it has none.
    #[inline(always)]
    pub fn of(c: char) -> Option<Class>
        ensures { result ≡ class_of c }
    {
        if Class::Comma.has(c) {
            return Some(Class::Comma);
        }
        if Class::Point.has(c) {
            return Some(Class::Point);
        }
        if Class::Space.has(c) {
            return Some(Class::Space);
        }
        if Class::Apostrophe.has(c) {
            return Some(Class::Apostrophe);
        }
        None
    }
}

/// Returns whether a character is a space.
fn is_space(c: char) -> bool
    ensures { result ≡ is_space c }
{
    matches!(
        c,
        ' ' | '\u{a0}' | '\u{2000}'..='\u{200a}' | '\u{202f}' | '\u{205f}' | '\u{3000}'
    )
}

/// Returns whether a character is a mark of the direction of writing.
fn is_direction(c: char) -> bool
    ensures { result ≡ is_direction c }
{
    matches!(
        c,
        '\u{61c}' | '\u{200e}'..='\u{200f}' | '\u{202a}'..='\u{202c}' | '\u{2066}'..='\u{2069}'
    )
}
