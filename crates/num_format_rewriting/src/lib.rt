//! Texts rewritten character by character into an array, and where a byte of the new text comes from.
//!
//! Any file may be changed. What each character stands for is an [`Image`].
#![tactic(auto)]

ghost use Rattle.std.specs.Prelude.{◌≡◌, ◌≤◌, ◌<◌, ◌++◌, ◌+◌, ℕ, [], ◌∷◌, IfSome, IsTrue, MatchOption, length, take};
ghost use Rattle.std.specs.Prelude.{encode_utf8, true};
ghost use Rattle.std.specs.Char.{is_ascii_digit};
ghost use Rattle.std.specs.Str.{chars, encode_utf8_all};
ghost use Rattle.num_format_rewriting.specs.Rewriting.{KeepsDigits, bytes_within, images};

use num_format_int::buffer::copy_bytes;

/// A map of characters to those that stand for them.
pub trait Image {
    ghost image: { Self → ℕ → ℕ };

    /// Returns what stands for a character.
    fn image(&self, c: char) -> char
        ensures { result ≡ image self.now c };

    /// Returns whether each digit stands for itself. It may return `false` for any map.
    #[inline(always)]
    fn keeps_digits(&self) -> bool
        ensures { IsTrue result → KeepsDigits (image self.now) }
    {
        false
    }
}

/// Writes a prefix and the images of a text's characters after it to the start of an array, and returns these bytes, or
/// `None` if the array is too short. Few have more than digits, which take no call.
#[inline(always)]
pub fn rewrite<'s, I: Image>(
    prefix: &str,
    text: &str,
    map: &I,
    array: &'s mut [u8],
) -> Option<&'s [u8]>
    ensures text { MatchOption result (length array.old < length (prefix.now ++ images (I.image map.now) text.now))
        (λ bytes. bytes.now ≡ prefix.now ++ images (I.image map.now) text.now) }
    ensures fits { IfSome result (λ bytes. length bytes.now ≤ length array.old) }
{
    let start = put(prefix.as_bytes(), 0, array)?;
    let (mut len, mut left) = put_digits(text, map, start, array);
    // One separator stands before most groups, so that the last image is kept.
    let mut last = '\0';
    let mut image = map.image(last);
    while let Some((c, rest)) = split_first(left) {
        image = image_after(last, image, c, map);
        last = c;
        let end = put_char(image, len, array)?;
        (len, left) = put_digits(rest, map, end, array);
    }
    let written = &array[..];
    Some(&written[..len])
}

/// Returns the image of a character, where that of the last one is known.
#[inline(always)]
fn image_after<I: Image>(last: char, image: char, c: char, map: &I) -> char
    requires { image ≡ I.image map.now last }
    ensures { result ≡ I.image map.now c }
{
    if c == last { image } else { map.image(c) }
}

/// Writes the digits that a text begins with after so many bytes of an array, where they stand for themselves and the
/// array has room for the text. Returns the number of bytes then, and what is left of the text.
#[inline(always)]
fn put_digits<'t, I: Image>(
    text: &'t str,
    map: &I,
    len: usize,
    array: &mut [u8],
) -> (usize, &'t str)
    requires { len ≤ length array.old }
    ensures text { take result.0 array.new ++ images (I.image map.now) result.1.now
        ≡ take len array.old ++ images (I.image map.now) text.now }
    ensures within { result.0 ≤ length array.new }
    ensures length { length array.new ≡ length array.old }
    ensures bound { length result.1.now ≤ length text.now }
{
    if !map.keeps_digits() {
        return (len, text);
    }
    if array.len() - len < text.len() {
        return (len, text);
    }
    let mut end = len;
    let mut left = text;
    while let Some((digit, rest)) = split_digit(left) {
        array[end] = digit;
        end += 1;
        left = rest;
    }
    (end, left)
}

/// Writes a character after so many bytes of an array, and returns their number then, or `None` if it does not fit.
#[inline(always)]
fn put_char(c: char, len: usize, array: &mut [u8]) -> Option<usize>
    requires { len ≤ length array.old }
    ensures text { MatchOption result (length array.old < len + length (encode_utf8 c))
        (λ end. (end ≤ length array.new) × (take end array.new ≡ take len array.old ++ encode_utf8 c)) }
    ensures length { length array.new ≡ length array.old }
{
    if c.is_ascii() && len < array.len() {
        array[len] = c as u8;
        return Some(len + 1);
    }
    let mut buffer = [0; 4];
    put(c.encode_utf8(&mut buffer).as_bytes(), len, array)
}

/// Does the same for bytes.
#[inline(always)]
fn put(bytes: &[u8], len: usize, array: &mut [u8]) -> Option<usize>
    requires { len ≤ length array.old }
    ensures text { MatchOption result (length array.old < len + length bytes.now)
        (λ end. (end ≤ length array.new) × (take end array.new ≡ take len array.old ++ bytes.now)) }
    ensures length { length array.new ≡ length array.old }
{
    if array.len() - len < bytes.len() {
        return None;
    }
    let end = len + bytes.len();
    copy_bytes(bytes, &mut array[len..end]);
    Some(end)
}

/// Returns how many bytes the first characters of a text have, whose images have no more than so many bytes.
pub fn bytes_within<I: Image>(room: usize, text: &str, map: &I) -> usize
    ensures value { result ≡ bytes_within (I.image map.now) room (chars text.now) }
    ensures bound { result ≤ length text.now }
{
    let mut bytes = 0;
    let mut space = room;
    let mut left = text;
    while let Some((c, rest)) = split_first(left) {
        let len = map.image(c).len_utf8();
        if len > space {
            return bytes;
        }
        space -= len;
        bytes += c.len_utf8();
        left = rest;
    }
    bytes
}

/// Returns the first character of a text, and what follows it.
#[inline]
pub fn split_first(text: &str) -> Option<(char, &str)>
    ensures parts { MatchOption result (chars text.now ≡ [])
        (λ parts. (chars text.now ≡ parts.0 ∷ chars parts.1.now) × (text.now ≡ encode_utf8 parts.0 ++ parts.1.now)) }
    ensures shorter { IfSome result (λ parts. length parts.1.now < length text.now) }
    ensures whole { encode_utf8_all (chars text.now) ≡ text.now }
{
    let mut chars = text.chars();
    let Some(first) = chars.next() else {
        return None;
    };
    Some((first, chars.as_str()))
}

/// Returns the digit that a text begins with, and what follows it.
#[inline(always)]
fn split_digit(text: &str) -> Option<(u8, &str)>
    ensures { IfSome result (λ parts. (text.now ≡ parts.0 ∷ parts.1.now) × (is_ascii_digit parts.0 ≡ true)) }
{
    let (first, _) = text.as_bytes().split_first()?;
    if !first.is_ascii_digit() {
        return None;
    }
    Some((*first, &text[1..]))
}
