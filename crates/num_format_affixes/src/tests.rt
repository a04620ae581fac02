//! Texts that were split by hand.
use crate::{AccountingError, AffixError, Affixes, Parts, accounting, signed_text};

/// Returns whether a text is split so by affixes.
fn is_split(affixes: &[&str], text: &str, before: &str, inner: &str, after: &str) -> bool {
    match Affixes::new(affixes) {
        Ok(affixes) => affixes.split(text.as_bytes()) == parts(before, inner, after),
        Err(_) => false,
    }
}

/// Returns whether a text is that of a negative number with these parts.
fn is_negative(text: &str, minus_sign: &str, before: &str, inner: &str, after: &str) -> bool {
    accounting(text.as_bytes(), minus_sign) == Ok(Some(parts(before, inner, after)))
}

fn parts<'t>(before: &'t str, inner: &'t str, after: &'t str) -> Parts<'t> {
    Parts {
        before: before.as_bytes(),
        inner: inner.as_bytes(),
        after: after.as_bytes(),
    }
}

/// Returns whether the text of a negative number for a parser is this one, in an array of five bytes.
fn is_signed(minus_sign: &str, number: &str, text: &str) -> bool {
    match signed_text(minus_sign, number.as_bytes(), &mut [0; 5]) {
        Some(signed) => signed == text.as_bytes(),
        None => false,
    }
}

/// Returns why a text is refused as an affix.
fn refused(text: &str) -> Option<AffixError> {
    Affixes::new(&["€", text]).err()
}

#[test]
fn affixes_are_split_off(rt: HostRuntime) {
    assert!(rt;
        is_split(
            &["€", "EUR"],
            "EUR\u{a0} 1.234,50 \u{202f}€",
            "EUR\u{a0} ",
            "1.234,50",
            " \u{202f}€"
        )
    );
    assert!(rt; is_split(&["€", "%"], "€ %", "€ ", "", "%"));
    assert!(rt; is_split(&["€"], "€€5 €€", "€", "€5 €", "€"));
    assert!(rt; is_split(&["€"], " 5\t€", "", " 5", "\t€"));
    assert!(rt; is_split(&["€"], "5\u{2009}€", "", "5\u{2009}", "€"));
    assert!(rt; is_split(&["U", "US$"], "US$1", "U", "S$1", ""));
    assert!(rt; is_split(&[], "5 €", "", "5 €", ""));
}

#[test]
fn points_follow_letters(rt: HostRuntime) {
    assert!(rt; is_split(&["Fr."], "Fr. 1'234.50", "Fr. ", "1'234.50", ""));
    assert!(rt; is_split(&["Fr"], "Fr.50", "Fr.", "50", ""));
    assert!(rt; is_split(&["руб", "€"], "12 руб.", "", "12", " руб."));
    assert!(rt; is_split(&["Rs", "kr"], "Rs..5 kr..", "Rs.", ".5 kr..", ""));
    assert!(rt; is_split(&["€"], "€.50", "€", ".50", ""));
    assert!(rt; is_split(&["د.إ"], "5 د.إ.", "", "5", " د.إ."));
}

#[test]
fn characters_of_numbers_are_refused(rt: HostRuntime) {
    for text in ["（", "—", "„", "\"", "₹", "ريال", "‰", "US$", "a/b", "B.V."] {
        assert_eq!(rt; refused(text), None);
    }
    for text in [
        "1", "٣", "²", "\t", "\u{a0}", "\u{2009}", "\u{3000}", "+", "-", "\u{2013}", "\u{2212}",
        "\u{fe62}", "\u{ff0d}", "'", "\u{2019}", "\u{66b}", ",", "\u{ff0e}", "\u{200e}",
        "\u{2069}", "(", ")", ".", "€.",
    ] {
        let at = if text == "€." { 3 } else { 0 };
        assert_eq!(rt;
            refused(text),
            Some(AffixError::NumberCharacter { index: 1, at })
        );
    }
    assert_eq!(rt;
        refused("kr.."),
        Some(AffixError::NumberCharacter { index: 1, at: 3 })
    );
    assert_eq!(rt; refused(""), Some(AffixError::Empty { index: 1 }));
}

#[test]
fn negative_numbers_are_split(rt: HostRuntime) {
    assert!(rt; is_negative("(1.234,50)", "-", "(", "1.234,50", ")"));
    assert!(rt; is_negative("( 5\u{a0})", "-", "( ", "5", "\u{a0})"));
    assert!(rt; is_negative("1.234,50-", "\u{2212}", "", "1.234,50", "-"));
    assert!(rt; is_negative("5 \u{2212}", "-", "", "5", " \u{2212}"));
    assert!(rt; is_negative("5\u{200e}-", "\u{200e}-", "", "5", "\u{200e}-"));
    assert!(rt; is_negative("()", "", "(", "", ")"));
    assert!(rt; is_negative("-", "", "", "", "-"));
    for text in ["", "(", "(5", "5)", "-(5)", "-5", "5", "5\u{2013}", "5- "] {
        assert_eq!(rt; accounting(text.as_bytes(), "-"), Ok(None));
    }
    for (text, at) in [
        ("(-5)", 1),
        ("-5-", 0),
        ("(5)-", 0),
        ("(5-)", 2),
        ("((5))", 1),
        ("(+5)", 1),
        ("5--", 1),
    ] {
        assert_eq!(rt;
            accounting(text.as_bytes(), "-"),
            Err(AccountingError::SecondSign { at })
        );
    }
}

#[test]
fn negative_numbers_have_a_sign_in_front(rt: HostRuntime) {
    assert!(rt; is_signed("\u{2212}", "10", "\u{2212}10"));
    assert!(rt; is_signed("-", "0,00", "0,00"));
    assert!(rt; is_signed("-", "", "-"));
    assert!(rt; is_signed("-", "\u{661}", "-\u{661}"));
    assert!(rt; signed_text("\u{2212}", b"100", &mut [0; 5]).is_none());
}
