//! The symbols of a format: which of its characters stands for one that a person types, and whether what people type
//! under the format has one meaning.
//!
//! That takes a test of each character. The symbols of all locales are known to pass, and are looked for first.
ghost use Rattle.std.specs.Prelude.{◌≡◌, ◌≤◌, Contains, IsTrue, codes, length, true, false};
ghost use Rattle.std.specs.List.{find};
ghost use Rattle.std.specs.Str.{chars};
ghost use Rattle.num_format_parsing.specs.Strict.{IsUnambiguous};
ghost use Rattle.num_format_typed.specs.Classes.{class_of, is_of};
ghost use Rattle.num_format_typed.specs.declared.classes.Class.TheVariants.{Direction};
ghost use Rattle.num_format_typed.specs.Trimming.{without_ends};
ghost use Rattle.num_format_typed.specs.Typed.{HasUsualSymbols, IsTypable, ascii_separators, begins_with, has_class};
ghost use Rattle.num_format_typed.specs.Typed.{has_shared, is_own, is_shared_in, put, separator_of, usual_marks};
ghost use Rattle.num_format_typed.specs.Typed.{usual_separators};

use crate::classes::Class;
use crate::trimming::without_ends;
use num_format_parsing::symbols::{is_locale_separator, is_locale_sign};
use num_format_rewriting::{Image, split_first};
use num_format_text::Format;

/// The symbols of a format that stand between digits.
#[derive(Clone, Copy)]
pub struct Symbols<'a> {
    pub(crate) separator: &'a str,
    pub(crate) mark: &'a str,
}

impl<'a> Image for Symbols<'a> {
    ghost image = { λ symbols. put symbols.separator.now symbols.mark.now };

    #[inline(always)]
    fn image(&self, c: char) -> char {
        let Some(class) = Class::of(c) else {
            return c;
        };
        if let Some(own) = first_of(self.separator, class) {
            return own;
        }
        first_of(self.mark, class).unwrap_or(c)
    }

    #[inline(always)]
    fn keeps_digits(&self) -> bool {
        true
    }
}

impl<'a> Symbols<'a> {
    /// Returns whether each character of a text is put for itself.
    fn are_own(&self, text: &str) -> bool
        ensures { result ≡ is_own self.now.separator.now self.now.mark.now text.now }
    {
        let mut left = text;
        while let Some((c, rest)) = split_first(left) {
            if self.image(c) != c {
                return false;
            }
            left = rest;
        }
        true
    }

    /// Returns whether a text has a character that could be typed for one of the symbols.
    fn share(&self, text: &str) -> bool
        ensures { result ≡ has_shared self.now.separator.now self.now.mark.now text.now }
    {
        text.chars().any(|c| self.shares(c))
    }

    /// Returns whether a symbol has a character of the class of this one.
    fn shares(&self, c: char) -> bool
        ensures { result ≡ is_shared_in self.now.separator.now self.now.mark.now (class_of c) }
    {
        match Class::of(c) {
            Some(class) => has_class(self.separator, class) || has_class(self.mark, class),
            None => false,
        }
    }
}

/// Returns the first character of a class in a text. It is not inlined, since few characters of a text are of a class.
#[inline(never)]
fn first_of(text: &str, class: Class) -> Option<char>
    ensures { result ≡ find (is_of class) (chars text.now) }
{
    text.chars().find(|c| class.has(*c))
}

/// Returns whether a text has a character of a class.
fn has_class(text: &str, class: Class) -> bool
    ensures { result ≡ has_class class text.now }
{
    text.chars().any(|c| class.has(c))
}

/// Returns whether a text begins with a character of a class.
#[inline]
fn begins_with(text: &str, class: Class) -> bool
    ensures { result ≡ begins_with class text.now }
{
    match split_first(text) {
        Some((c, _)) => class.has(c),
        None => false,
    }
}

/// Returns whether the symbols of a format are those of locales or of a keyboard.
#[inline(always)]
pub(crate) fn has_usual_symbols<F: Format>(format: &F) -> bool
    ensures { IsTrue result → HasUsualSymbols (F.answers format.now) }
{
    is_locale_sign(format.minus_sign().into_str())
        && is_usual_mark(format.decimal().into_str())
        && is_usual_separator(format.separator().into_str())
}

/// Returns whether a decimal mark is one of a locale.
#[inline(always)]
fn is_usual_mark(text: &str) -> bool
    ensures { IsTrue result → Contains usual_marks text.now }
{
    matches!(*text.as_bytes(), [b'.'] | [b','] | [0xD9, 0xAB])
}

/// Returns whether a separator is one of a locale or of a keyboard.
#[inline(always)]
fn is_usual_separator(text: &str) -> bool
    ensures { IsTrue result → Contains usual_separators text.now }
{
    if is_usual_mark(text) {
        return true;
    }
    if is_locale_separator(text) {
        return true;
    }
    is_ascii_separator(text)
}

/// Returns whether a separator is one of a keyboard.
#[inline(always)]
fn is_ascii_separator(text: &str) -> bool
    ensures { IsTrue result → Contains ascii_separators text.now }
{
    matches!(*text.as_bytes(), [b'\''] | [b' '])
}

/// Returns whether what people type under a format has one meaning, where strict parsing takes the format.
#[cold]
#[inline(never)]
pub(crate) fn is_typable<F: Format>(format: &F, symbols: Symbols<'_>, minus_sign: &str) -> bool
    requires unambiguous { IsUnambiguous (F.answers format.now) }
    requires separator { symbols.separator.now ≡ separator_of (F.answers format.now) }
    requires mark { symbols.mark.now ≡ (F.answers format.now).decimal }
    requires minus_sign { minus_sign.now ≡ (F.answers format.now).minus_sign }
    ensures typable { result ≡ true → IsTypable (F.answers format.now) }
    ensures refused { result ≡ false → ¬ (IsTypable (F.answers format.now)) }
{
    let Symbols { separator, mark } = symbols;
    let core = without_ends(minus_sign, Class::Direction);
    if core.is_empty() || begins_with(core, Class::End) || begins_with(core, Class::Plus) {
        return false;
    }
    if !symbols.are_own(separator) || !symbols.are_own(mark) || symbols.share(core) {
        return false;
    }
    true
}

/// Returns a minus sign without marks of direction at its ends. Most are a hyphen, which is none.
#[inline(always)]
pub(crate) fn core_of(minus_sign: &str) -> &str
    ensures value { result.now ≡ without_ends (is_of Direction) minus_sign.now }
    ensures bound { length result.now ≤ length minus_sign.now }
{
    if is_hyphen(minus_sign) {
        return minus_sign;
    }
    without_ends(minus_sign, Class::Direction)
}

/// Returns whether a text is a hyphen.
#[inline(always)]
fn is_hyphen(text: &str) -> bool
    ensures { IsTrue result → text.now ≡ codes "-" }
{
    matches!(*text.as_bytes(), [b'-'])
}
