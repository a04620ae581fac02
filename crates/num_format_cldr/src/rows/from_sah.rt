//! The rows from `sah` to `uz`. Written by tools/locales.py from specs/; do not edit.
ghost use Rattle.num_format_cldr.specs.Entry.{ShowsAll};
ghost use Rattle.num_format_cldr.specs.Table.{piece};

use crate::Row;

#[rattlefmt::skip]
static ROWS: [Row; 64] = [
    Row { name: "sah", dec: ",", group: 0, inf: "\u{221e}", min: "-", nan: "чыыһыла\u{a0}буотах", plus: "+", sep: "\u{a0}" },
    Row { name: "saq", dec: ".", group: 0, inf: "\u{221e}", min: "-", nan: "NaN", plus: "+", sep: "," },
    Row { name: "sbp", dec: ".", group: 0, inf: "\u{221e}", min: "-", nan: "NaN", plus: "+", sep: "," },
    Row { name: "sd", dec: "\u{66b}", group: 0, inf: "\u{221e}", min: "\u{61c}-", nan: "NaN", plus: "\u{61c}+", sep: "\u{66c}" },
    Row { name: "se", dec: ",", group: 0, inf: "\u{221e}", min: "\u{2212}", nan: "NaN", plus: "+", sep: "\u{a0}" },
    Row { name: "se-FI", dec: ",", group: 0, inf: "\u{221e}", min: "\u{2212}", nan: "NaN", plus: "+", sep: "\u{a0}" },
    Row { name: "se-SE", dec: ",", group: 0, inf: "\u{221e}", min: "\u{2212}", nan: "NaN", plus: "+", sep: "\u{a0}" },
    Row { name: "seh", dec: ",", group: 0, inf: "\u{221e}", min: "-", nan: "NaN", plus: "+", sep: "." },
    Row { name: "ses", dec: ".", group: 0, inf: "\u{221e}", min: "-", nan: "NaN", plus: "+", sep: "\u{a0}" },
    Row { name: "sg", dec: ",", group: 0, inf: "\u{221e}", min: "-", nan: "NaN", plus: "+", sep: "." },
    Row { name: "shi", dec: ",", group: 0, inf: "\u{221e}", min: "-", nan: "NaN", plus: "+", sep: "\u{a0}" },
    Row { name: "shi-Latn", dec: ",", group: 0, inf: "\u{221e}", min: "-", nan: "NaN", plus: "+", sep: "\u{a0}" },
    Row { name: "shi-Tfng", dec: ",", group: 0, inf: "\u{221e}", min: "-", nan: "NaN", plus: "+", sep: "\u{a0}" },
    Row { name: "si", dec: ".", group: 0, inf: "\u{221e}", min: "-", nan: "NaN", plus: "+", sep: "," },
    Row { name: "sk", dec: ",", group: 0, inf: "\u{221e}", min: "-", nan: "NaN", plus: "+", sep: "\u{a0}" },
    Row { name: "sl", dec: ",", group: 0, inf: "\u{221e}", min: "\u{2212}", nan: "NaN", plus: "+", sep: "." },
    Row { name: "smn", dec: ",", group: 0, inf: "\u{221e}", min: "-", nan: "epiloho", plus: "+", sep: "\u{a0}" },
    Row { name: "sn", dec: ".", group: 0, inf: "\u{221e}", min: "-", nan: "NaN", plus: "+", sep: "," },
    Row { name: "so", dec: ".", group: 0, inf: "\u{221e}", min: "-", nan: "MaL", plus: "+", sep: "," },
    Row { name: "so-DJ", dec: ".", group: 0, inf: "\u{221e}", min: "-", nan: "MaL", plus: "+", sep: "," },
    Row { name: "so-ET", dec: ".", group: 0, inf: "\u{221e}", min: "-", nan: "MaL", plus: "+", sep: "," },
    Row { name: "so-KE", dec: ".", group: 0, inf: "\u{221e}", min: "-", nan: "MaL", plus: "+", sep: "," },
    Row { name: "sq", dec: ",", group: 0, inf: "\u{221e}", min: "-", nan: "NaN", plus: "+", sep: "\u{a0}" },
    Row { name: "sq-MK", dec: ",", group: 0, inf: "\u{221e}", min: "-", nan: "NaN", plus: "+", sep: "\u{a0}" },
    Row { name: "sq-XK", dec: ",", group: 0, inf: "\u{221e}", min: "-", nan: "NaN", plus: "+", sep: "\u{a0}" },
    Row { name: "sr", dec: ",", group: 0, inf: "\u{221e}", min: "-", nan: "NaN", plus: "+", sep: "." },
    Row { name: "sr-Cyrl", dec: ",", group: 0, inf: "\u{221e}", min: "-", nan: "NaN", plus: "+", sep: "." },
    Row { name: "sr-Cyrl-BA", dec: ",", group: 0, inf: "\u{221e}", min: "-", nan: "NaN", plus: "+", sep: "." },
    Row { name: "sr-Cyrl-ME", dec: ",", group: 0, inf: "\u{221e}", min: "-", nan: "NaN", plus: "+", sep: "." },
    Row { name: "sr-Cyrl-XK", dec: ",", group: 0, inf: "\u{221e}", min: "-", nan: "NaN", plus: "+", sep: "." },
    Row { name: "sr-Latn", dec: ",", group: 0, inf: "\u{221e}", min: "-", nan: "NaN", plus: "+", sep: "." },
    Row { name: "sr-Latn-BA", dec: ",", group: 0, inf: "\u{221e}", min: "-", nan: "NaN", plus: "+", sep: "." },
    Row { name: "sr-Latn-ME", dec: ",", group: 0, inf: "\u{221e}", min: "-", nan: "NaN", plus: "+", sep: "." },
    Row { name: "sr-Latn-XK", dec: ",", group: 0, inf: "\u{221e}", min: "-", nan: "NaN", plus: "+", sep: "." },
    Row { name: "sv", dec: ",", group: 0, inf: "\u{221e}", min: "\u{2212}", nan: "NaN", plus: "+", sep: "\u{a0}" },
    Row { name: "sv-AX", dec: ",", group: 0, inf: "\u{221e}", min: "\u{2212}", nan: "NaN", plus: "+", sep: "\u{a0}" },
    Row { name: "sv-FI", dec: ",", group: 0, inf: "\u{221e}", min: "\u{2212}", nan: "NaN", plus: "+", sep: "\u{a0}" },
    Row { name: "sw", dec: ".", group: 0, inf: "\u{221e}", min: "-", nan: "NaN", plus: "+", sep: "," },
    Row { name: "sw-CD", dec: ",", group: 0, inf: "\u{221e}", min: "-", nan: "NaN", plus: "+", sep: "." },
    Row { name: "sw-KE", dec: ".", group: 0, inf: "\u{221e}", min: "-", nan: "NaN", plus: "+", sep: "," },
    Row { name: "sw-UG", dec: ".", group: 0, inf: "\u{221e}", min: "-", nan: "NaN", plus: "+", sep: "," },
    Row { name: "ta", dec: ".", group: 1, inf: "\u{221e}", min: "-", nan: "NaN", plus: "+", sep: "," },
    Row { name: "ta-LK", dec: ".", group: 1, inf: "\u{221e}", min: "-", nan: "NaN", plus: "+", sep: "," },
    Row { name: "ta-MY", dec: ".", group: 0, inf: "\u{221e}", min: "-", nan: "NaN", plus: "+", sep: "," },
    Row { name: "ta-SG", dec: ".", group: 0, inf: "\u{221e}", min: "-", nan: "NaN", plus: "+", sep: "," },
    Row { name: "te", dec: ".", group: 1, inf: "\u{221e}", min: "-", nan: "NaN", plus: "+", sep: "," },
    Row { name: "teo", dec: ".", group: 0, inf: "\u{221e}", min: "-", nan: "NaN", plus: "+", sep: "," },
    Row { name: "teo-KE", dec: ".", group: 0, inf: "\u{221e}", min: "-", nan: "NaN", plus: "+", sep: "," },
    Row { name: "tg", dec: ",", group: 0, inf: "\u{221e}", min: "-", nan: "NaN", plus: "+", sep: "\u{a0}" },
    Row { name: "th", dec: ".", group: 0, inf: "\u{221e}", min: "-", nan: "NaN", plus: "+", sep: "," },
    Row { name: "ti", dec: ".", group: 0, inf: "\u{221e}", min: "-", nan: "NaN", plus: "+", sep: "," },
    Row { name: "ti-ER", dec: ".", group: 0, inf: "\u{221e}", min: "-", nan: "NaN", plus: "+", sep: "," },
    Row { name: "tk", dec: ",", group: 0, inf: "\u{221e}", min: "-", nan: "san\u{a0}däl", plus: "+", sep: "\u{a0}" },
    Row { name: "to", dec: ".", group: 0, inf: "\u{221e}", min: "-", nan: "TF", plus: "+", sep: "," },
    Row { name: "tr", dec: ",", group: 0, inf: "\u{221e}", min: "-", nan: "NaN", plus: "+", sep: "." },
    Row { name: "tr-CY", dec: ",", group: 0, inf: "\u{221e}", min: "-", nan: "NaN", plus: "+", sep: "." },
    Row { name: "tt", dec: ",", group: 0, inf: "\u{221e}", min: "-", nan: "NaN", plus: "+", sep: "\u{a0}" },
    Row { name: "twq", dec: ".", group: 0, inf: "\u{221e}", min: "-", nan: "NaN", plus: "+", sep: "\u{a0}" },
    Row { name: "tzm", dec: ",", group: 0, inf: "\u{221e}", min: "-", nan: "NaN", plus: "+", sep: "\u{a0}" },
    Row { name: "ug", dec: ".", group: 0, inf: "\u{221e}", min: "-", nan: "NaN", plus: "+", sep: "," },
    Row { name: "uk", dec: ",", group: 0, inf: "\u{221e}", min: "-", nan: "NaN", plus: "+", sep: "\u{a0}" },
    Row { name: "ur", dec: ".", group: 0, inf: "\u{221e}", min: "\u{200e}-", nan: "NaN", plus: "\u{200e}+", sep: "," },
    Row { name: "ur-IN", dec: "\u{66b}", group: 0, inf: "\u{221e}", min: "\u{200e}-\u{200e}", nan: "NaN", plus: "\u{200e}+\u{200e}", sep: "\u{66c}" },
    Row { name: "uz", dec: ",", group: 0, inf: "\u{221e}", min: "-", nan: "son\u{a0}emas", plus: "+", sep: "\u{a0}" },
];

/// Returns the rows from place 448 to place 511.
pub fn rows() -> &'static [Row]
    ensures { ShowsAll result.now (piece 7) }
{
    &ROWS
}
