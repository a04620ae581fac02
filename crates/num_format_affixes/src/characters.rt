//! The characters that numbers have, or what is typed for them.
ghost use Rattle.std.specs.Prelude.{◌≡◌};
ghost use Rattle.num_format_affixes.specs.Characters.{is_blank, is_direction, is_mark, is_of_number, is_sign};

/// Returns whether a character is one that numbers of locales have or that is typed for one of these, or a parenthesis.
pub(crate) fn is_of_number(c: char) -> bool
    ensures { result ≡ is_of_number c }
{
    c.is_numeric() || is_sign(c) || is_mark(c) || is_blank(c) || is_direction(c)
}

/// Returns whether a character is a plus or a minus sign, is typed for one, or is a parenthesis.
fn is_sign(c: char) -> bool
    ensures { result ≡ is_sign c }
{
    matches!(
        c,
        '(' | ')' | '+' | '-' | '\u{2010}'..='\u{2013}' | '\u{2212}' | '\u{fe62}'..='\u{fe63}' | '\u{ff0b}'
            | '\u{ff0d}'
    )
}

/// Returns whether a character is a separator or a decimal mark, or is typed for one, and no blank.
fn is_mark(c: char) -> bool
    ensures { result ≡ is_mark c }
{
    matches!(
        c,
        '\'' | ',' | '.' | '`' | '\u{b4}' | '\u{2bc}' | '\u{66b}'..='\u{66c}' | '\u{2018}'..='\u{2019}'
            | '\u{fe50}' | '\u{fe52}' | '\u{ff07}' | '\u{ff0c}' | '\u{ff0e}'
    )
}

/// Returns whether a character is a space or ASCII whitespace.
fn is_blank(c: char) -> bool
    ensures { result ≡ is_blank c }
{
    c.is_ascii_whitespace()
        || matches!(
            c,
            '\u{a0}' | '\u{2000}'..='\u{200a}' | '\u{202f}' | '\u{205f}' | '\u{3000}'
        )
}

/// Returns whether a character is a mark of the direction of writing.
fn is_direction(c: char) -> bool
    ensures { result ≡ is_direction c }
{
    matches!(
        c,
        '\u{61c}' | '\u{200e}'..='\u{200f}' | '\u{202a}'..='\u{202c}' | '\u{2066}'..='\u{2069}'
    )
}
