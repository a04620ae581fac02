//! The rows from `af` to `cgg`. Written by tools/locales.py from specs/; do not edit.
ghost use Rattle.num_format_cldr.specs.Entry.{ShowsAll};
ghost use Rattle.num_format_cldr.specs.Table.{piece};

use crate::Row;

#[rattlefmt::skip]
static ROWS: [Row; 64] = [
    Row { name: "af", dec: ",", group: 0, inf: "\u{221e}", min: "-", nan: "NaN", plus: "+", sep: "\u{a0}" },
    Row { name: "af-NA", dec: ",", group: 0, inf: "\u{221e}", min: "-", nan: "NaN", plus: "+", sep: "\u{a0}" },
    Row { name: "agq", dec: ",", group: 0, inf: "\u{221e}", min: "-", nan: "NaN", plus: "+", sep: "\u{a0}" },
    Row { name: "ak", dec: ".", group: 0, inf: "\u{221e}", min: "-", nan: "NaN", plus: "+", sep: "," },
    Row { name: "am", dec: ".", group: 0, inf: "\u{221e}", min: "-", nan: "NaN", plus: "+", sep: "," },
    Row { name: "ar", dec: "\u{66b}", group: 0, inf: "\u{221e}", min: "\u{61c}-", nan: "\u{644}\u{64a}\u{633}\u{a0}\u{631}\u{642}\u{645}", plus: "\u{61c}+", sep: "\u{66c}" },
    Row { name: "ar-AE", dec: "\u{66b}", group: 0, inf: "\u{221e}", min: "\u{61c}-", nan: "\u{644}\u{64a}\u{633}\u{a0}\u{631}\u{642}\u{645}", plus: "\u{61c}+", sep: "\u{66c}" },
    Row { name: "ar-BH", dec: "\u{66b}", group: 0, inf: "\u{221e}", min: "\u{61c}-", nan: "\u{644}\u{64a}\u{633}\u{a0}\u{631}\u{642}\u{645}", plus: "\u{61c}+", sep: "\u{66c}" },
    Row { name: "ar-DJ", dec: "\u{66b}", group: 0, inf: "\u{221e}", min: "\u{61c}-", nan: "\u{644}\u{64a}\u{633}\u{a0}\u{631}\u{642}\u{645}", plus: "\u{61c}+", sep: "\u{66c}" },
    Row { name: "ar-DZ", dec: ",", group: 0, inf: "\u{221e}", min: "\u{200e}-", nan: "\u{644}\u{64a}\u{633}\u{a0}\u{631}\u{642}\u{645}\u{64b}\u{627}", plus: "\u{200e}+", sep: "." },
    Row { name: "ar-EG", dec: "\u{66b}", group: 0, inf: "\u{221e}", min: "\u{61c}-", nan: "\u{644}\u{64a}\u{633}\u{a0}\u{631}\u{642}\u{645}", plus: "\u{61c}+", sep: "\u{66c}" },
    Row { name: "ar-EH", dec: ".", group: 0, inf: "\u{221e}", min: "\u{200e}-", nan: "\u{644}\u{64a}\u{633}\u{a0}\u{631}\u{642}\u{645}\u{64b}\u{627}", plus: "\u{200e}+", sep: "," },
    Row { name: "ar-ER", dec: "\u{66b}", group: 0, inf: "\u{221e}", min: "\u{61c}-", nan: "\u{644}\u{64a}\u{633}\u{a0}\u{631}\u{642}\u{645}", plus: "\u{61c}+", sep: "\u{66c}" },
    Row { name: "ar-IL", dec: "\u{66b}", group: 0, inf: "\u{221e}", min: "\u{61c}-", nan: "\u{644}\u{64a}\u{633}\u{a0}\u{631}\u{642}\u{645}", plus: "\u{61c}+", sep: "\u{66c}" },
    Row { name: "ar-IQ", dec: "\u{66b}", group: 0, inf: "\u{221e}", min: "\u{61c}-", nan: "\u{644}\u{64a}\u{633}\u{a0}\u{631}\u{642}\u{645}", plus: "\u{61c}+", sep: "\u{66c}" },
    Row { name: "ar-JO", dec: "\u{66b}", group: 0, inf: "\u{221e}", min: "\u{61c}-", nan: "\u{644}\u{64a}\u{633}\u{a0}\u{631}\u{642}\u{645}", plus: "\u{61c}+", sep: "\u{66c}" },
    Row { name: "ar-KM", dec: "\u{66b}", group: 0, inf: "\u{221e}", min: "\u{61c}-", nan: "\u{644}\u{64a}\u{633}\u{a0}\u{631}\u{642}\u{645}", plus: "\u{61c}+", sep: "\u{66c}" },
    Row { name: "ar-KW", dec: "\u{66b}", group: 0, inf: "\u{221e}", min: "\u{61c}-", nan: "\u{644}\u{64a}\u{633}\u{a0}\u{631}\u{642}\u{645}", plus: "\u{61c}+", sep: "\u{66c}" },
    Row { name: "ar-LB", dec: "\u{66b}", group: 0, inf: "\u{221e}", min: "\u{61c}-", nan: "\u{644}\u{64a}\u{633}\u{a0}\u{631}\u{642}\u{645}", plus: "\u{61c}+", sep: "\u{66c}" },
    Row { name: "ar-LY", dec: ",", group: 0, inf: "\u{221e}", min: "\u{200e}-", nan: "\u{644}\u{64a}\u{633}\u{a0}\u{631}\u{642}\u{645}\u{64b}\u{627}", plus: "\u{200e}+", sep: "." },
    Row { name: "ar-MA", dec: ",", group: 0, inf: "\u{221e}", min: "\u{200e}-", nan: "\u{644}\u{64a}\u{633}\u{a0}\u{631}\u{642}\u{645}\u{64b}\u{627}", plus: "\u{200e}+", sep: "." },
    Row { name: "ar-MR", dec: "\u{66b}", group: 0, inf: "\u{221e}", min: "\u{61c}-", nan: "\u{644}\u{64a}\u{633}\u{a0}\u{631}\u{642}\u{645}", plus: "\u{61c}+", sep: "\u{66c}" },
    Row { name: "ar-OM", dec: "\u{66b}", group: 0, inf: "\u{221e}", min: "\u{61c}-", nan: "\u{644}\u{64a}\u{633}\u{a0}\u{631}\u{642}\u{645}", plus: "\u{61c}+", sep: "\u{66c}" },
    Row { name: "ar-PS", dec: "\u{66b}", group: 0, inf: "\u{221e}", min: "\u{61c}-", nan: "\u{644}\u{64a}\u{633}\u{a0}\u{631}\u{642}\u{645}", plus: "\u{61c}+", sep: "\u{66c}" },
    Row { name: "ar-QA", dec: "\u{66b}", group: 0, inf: "\u{221e}", min: "\u{61c}-", nan: "\u{644}\u{64a}\u{633}\u{a0}\u{631}\u{642}\u{645}", plus: "\u{61c}+", sep: "\u{66c}" },
    Row { name: "ar-SA", dec: "\u{66b}", group: 0, inf: "\u{221e}", min: "\u{61c}-", nan: "\u{644}\u{64a}\u{633}\u{a0}\u{631}\u{642}\u{645}", plus: "\u{61c}+", sep: "\u{66c}" },
    Row { name: "ar-SD", dec: "\u{66b}", group: 0, inf: "\u{221e}", min: "\u{61c}-", nan: "\u{644}\u{64a}\u{633}\u{a0}\u{631}\u{642}\u{645}", plus: "\u{61c}+", sep: "\u{66c}" },
    Row { name: "ar-SO", dec: "\u{66b}", group: 0, inf: "\u{221e}", min: "\u{61c}-", nan: "\u{644}\u{64a}\u{633}\u{a0}\u{631}\u{642}\u{645}", plus: "\u{61c}+", sep: "\u{66c}" },
    Row { name: "ar-SS", dec: "\u{66b}", group: 0, inf: "\u{221e}", min: "\u{61c}-", nan: "\u{644}\u{64a}\u{633}\u{a0}\u{631}\u{642}\u{645}", plus: "\u{61c}+", sep: "\u{66c}" },
    Row { name: "ar-SY", dec: "\u{66b}", group: 0, inf: "\u{221e}", min: "\u{61c}-", nan: "\u{644}\u{64a}\u{633}\u{a0}\u{631}\u{642}\u{645}", plus: "\u{61c}+", sep: "\u{66c}" },
    Row { name: "ar-TD", dec: "\u{66b}", group: 0, inf: "\u{221e}", min: "\u{61c}-", nan: "\u{644}\u{64a}\u{633}\u{a0}\u{631}\u{642}\u{645}", plus: "\u{61c}+", sep: "\u{66c}" },
    Row { name: "ar-TN", dec: ",", group: 0, inf: "\u{221e}", min: "\u{200e}-", nan: "\u{644}\u{64a}\u{633}\u{a0}\u{631}\u{642}\u{645}\u{64b}\u{627}", plus: "\u{200e}+", sep: "." },
    Row { name: "ar-YE", dec: "\u{66b}", group: 0, inf: "\u{221e}", min: "\u{61c}-", nan: "\u{644}\u{64a}\u{633}\u{a0}\u{631}\u{642}\u{645}", plus: "\u{61c}+", sep: "\u{66c}" },
    Row { name: "as", dec: ".", group: 1, inf: "\u{221e}", min: "-", nan: "NaN", plus: "+", sep: "," },
    Row { name: "asa", dec: ".", group: 0, inf: "\u{221e}", min: "-", nan: "NaN", plus: "+", sep: "," },
    Row { name: "ast", dec: ",", group: 0, inf: "\u{221e}", min: "-", nan: "ND", plus: "+", sep: "." },
    Row { name: "az", dec: ",", group: 0, inf: "\u{221e}", min: "-", nan: "NaN", plus: "+", sep: "." },
    Row { name: "az-Cyrl", dec: ",", group: 0, inf: "\u{221e}", min: "-", nan: "NaN", plus: "+", sep: "." },
    Row { name: "az-Latn", dec: ",", group: 0, inf: "\u{221e}", min: "-", nan: "NaN", plus: "+", sep: "." },
    Row { name: "bas", dec: ",", group: 0, inf: "\u{221e}", min: "-", nan: "NaN", plus: "+", sep: "\u{a0}" },
    Row { name: "be", dec: ",", group: 0, inf: "\u{221e}", min: "-", nan: "NaN", plus: "+", sep: "\u{a0}" },
    Row { name: "bem", dec: ".", group: 0, inf: "\u{221e}", min: "-", nan: "NaN", plus: "+", sep: "," },
    Row { name: "bez", dec: ".", group: 0, inf: "\u{221e}", min: "-", nan: "NaN", plus: "+", sep: "," },
    Row { name: "bg", dec: ",", group: 0, inf: "\u{221e}", min: "-", nan: "NaN", plus: "+", sep: "\u{a0}" },
    Row { name: "bm", dec: ".", group: 0, inf: "\u{221e}", min: "-", nan: "NaN", plus: "+", sep: "," },
    Row { name: "bn", dec: ".", group: 1, inf: "\u{221e}", min: "-", nan: "NaN", plus: "+", sep: "," },
    Row { name: "bn-IN", dec: ".", group: 1, inf: "\u{221e}", min: "-", nan: "NaN", plus: "+", sep: "," },
    Row { name: "bo", dec: ".", group: 0, inf: "\u{221e}", min: "-", nan: "NaN", plus: "+", sep: "," },
    Row { name: "bo-IN", dec: ".", group: 0, inf: "\u{221e}", min: "-", nan: "NaN", plus: "+", sep: "," },
    Row { name: "br", dec: ",", group: 0, inf: "\u{221e}", min: "-", nan: "NaN", plus: "+", sep: "\u{a0}" },
    Row { name: "brx", dec: ".", group: 1, inf: "\u{221e}", min: "-", nan: "NaN", plus: "+", sep: "," },
    Row { name: "bs", dec: ",", group: 0, inf: "\u{221e}", min: "-", nan: "NaN", plus: "+", sep: "." },
    Row { name: "bs-Cyrl", dec: ",", group: 0, inf: "\u{221e}", min: "-", nan: "NaN", plus: "+", sep: "." },
    Row { name: "bs-Latn", dec: ",", group: 0, inf: "\u{221e}", min: "-", nan: "NaN", plus: "+", sep: "." },
    Row { name: "ca", dec: ",", group: 0, inf: "\u{221e}", min: "-", nan: "NaN", plus: "+", sep: "." },
    Row { name: "ca-AD", dec: ",", group: 0, inf: "\u{221e}", min: "-", nan: "NaN", plus: "+", sep: "." },
    Row { name: "ca-ES-VALENCIA", dec: ",", group: 0, inf: "\u{221e}", min: "-", nan: "NaN", plus: "+", sep: "." },
    Row { name: "ca-FR", dec: ",", group: 0, inf: "\u{221e}", min: "-", nan: "NaN", plus: "+", sep: "." },
    Row { name: "ca-IT", dec: ",", group: 0, inf: "\u{221e}", min: "-", nan: "NaN", plus: "+", sep: "." },
    Row { name: "ccp", dec: ".", group: 1, inf: "\u{221e}", min: "-", nan: "NaN", plus: "+", sep: "," },
    Row { name: "ccp-IN", dec: ".", group: 1, inf: "\u{221e}", min: "-", nan: "NaN", plus: "+", sep: "," },
    Row { name: "ce", dec: ".", group: 0, inf: "\u{221e}", min: "-", nan: "Терхьаш\u{a0}дац", plus: "+", sep: "," },
    Row { name: "ceb", dec: ".", group: 0, inf: "\u{221e}", min: "-", nan: "NaN", plus: "+", sep: "," },
    Row { name: "cgg", dec: ".", group: 0, inf: "\u{221e}", min: "-", nan: "NaN", plus: "+", sep: "," },
];

/// Returns the rows from place 0 to place 63.
pub fn rows() -> &'static [Row]
    ensures { ShowsAll result.now (piece 0) }
{
    &ROWS
}
