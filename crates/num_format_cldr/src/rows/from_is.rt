//! The rows from `is` to `mt`. Written by tools/locales.py from specs/; do not edit.
ghost use Rattle.num_format_cldr.specs.Entry.{ShowsAll};
ghost use Rattle.num_format_cldr.specs.Table.{piece};

use crate::Row;

#[rattlefmt::skip]
static ROWS: [Row; 64] = [
    Row { name: "is", dec: ",", group: 0, inf: "\u{221e}", min: "-", nan: "NaN", plus: "+", sep: "." },
    Row { name: "it", dec: ",", group: 0, inf: "\u{221e}", min: "-", nan: "NaN", plus: "+", sep: "." },
    Row { name: "it-CH", dec: ".", group: 0, inf: "\u{221e}", min: "-", nan: "NaN", plus: "+", sep: "\u{2019}" },
    Row { name: "it-SM", dec: ",", group: 0, inf: "\u{221e}", min: "-", nan: "NaN", plus: "+", sep: "." },
    Row { name: "it-VA", dec: ",", group: 0, inf: "\u{221e}", min: "-", nan: "NaN", plus: "+", sep: "." },
    Row { name: "ja", dec: ".", group: 0, inf: "\u{221e}", min: "-", nan: "NaN", plus: "+", sep: "," },
    Row { name: "jgo", dec: ",", group: 0, inf: "\u{221e}", min: "-", nan: "NaN", plus: "+", sep: "." },
    Row { name: "jmc", dec: ".", group: 0, inf: "\u{221e}", min: "-", nan: "NaN", plus: "+", sep: "," },
    Row { name: "jv", dec: ",", group: 0, inf: "\u{221e}", min: "-", nan: "NaN", plus: "+", sep: "." },
    Row { name: "ka", dec: ",", group: 0, inf: "\u{221e}", min: "-", nan: "არ\u{a0}არის\u{a0}რიცხვი", plus: "+", sep: "\u{a0}" },
    Row { name: "kab", dec: ",", group: 0, inf: "\u{221e}", min: "-", nan: "NaN", plus: "+", sep: "\u{a0}" },
    Row { name: "kam", dec: ".", group: 0, inf: "\u{221e}", min: "-", nan: "NaN", plus: "+", sep: "," },
    Row { name: "kde", dec: ".", group: 0, inf: "\u{221e}", min: "-", nan: "NaN", plus: "+", sep: "," },
    Row { name: "kea", dec: ",", group: 0, inf: "\u{221e}", min: "-", nan: "NaN", plus: "+", sep: "\u{a0}" },
    Row { name: "khq", dec: ".", group: 0, inf: "\u{221e}", min: "-", nan: "NaN", plus: "+", sep: "\u{a0}" },
    Row { name: "ki", dec: ".", group: 0, inf: "\u{221e}", min: "-", nan: "NaN", plus: "+", sep: "," },
    Row { name: "kk", dec: ",", group: 0, inf: "\u{221e}", min: "-", nan: "сан\u{a0}емес", plus: "+", sep: "\u{a0}" },
    Row { name: "kkj", dec: ",", group: 0, inf: "\u{221e}", min: "-", nan: "NaN", plus: "+", sep: "." },
    Row { name: "kl", dec: ",", group: 0, inf: "\u{221e}", min: "-", nan: "NaN", plus: "+", sep: "." },
    Row { name: "kln", dec: ".", group: 0, inf: "\u{221e}", min: "-", nan: "NaN", plus: "+", sep: "," },
    Row { name: "km", dec: ",", group: 0, inf: "\u{221e}", min: "-", nan: "NaN", plus: "+", sep: "." },
    Row { name: "kn", dec: ".", group: 0, inf: "\u{221e}", min: "-", nan: "NaN", plus: "+", sep: "," },
    Row { name: "ko", dec: ".", group: 0, inf: "\u{221e}", min: "-", nan: "NaN", plus: "+", sep: "," },
    Row { name: "ko-KP", dec: ".", group: 0, inf: "\u{221e}", min: "-", nan: "NaN", plus: "+", sep: "," },
    Row { name: "kok", dec: ".", group: 0, inf: "\u{221e}", min: "-", nan: "NaN", plus: "+", sep: "," },
    Row { name: "ks", dec: "\u{66b}", group: 1, inf: "\u{221e}", min: "\u{200e}-\u{200e}", nan: "NaN", plus: "\u{200e}+\u{200e}", sep: "\u{66c}" },
    Row { name: "ksb", dec: ".", group: 0, inf: "\u{221e}", min: "-", nan: "NaN", plus: "+", sep: "," },
    Row { name: "ksf", dec: ",", group: 0, inf: "\u{221e}", min: "-", nan: "NaN", plus: "+", sep: "\u{a0}" },
    Row { name: "ksh", dec: ",", group: 0, inf: "\u{221e}", min: "\u{2212}", nan: "NaN", plus: "+", sep: "\u{a0}" },
    Row { name: "ku", dec: ",", group: 0, inf: "\u{221e}", min: "-", nan: "NaN", plus: "+", sep: "." },
    Row { name: "kw", dec: ".", group: 0, inf: "\u{221e}", min: "-", nan: "NaN", plus: "+", sep: "," },
    Row { name: "ky", dec: ",", group: 0, inf: "\u{221e}", min: "-", nan: "сан\u{a0}эмес", plus: "+", sep: "\u{a0}" },
    Row { name: "lag", dec: ".", group: 0, inf: "\u{221e}", min: "-", nan: "NaN", plus: "+", sep: "," },
    Row { name: "lb", dec: ",", group: 0, inf: "\u{221e}", min: "-", nan: "NaN", plus: "+", sep: "." },
    Row { name: "lg", dec: ".", group: 0, inf: "\u{221e}", min: "-", nan: "NaN", plus: "+", sep: "," },
    Row { name: "lkt", dec: ".", group: 0, inf: "\u{221e}", min: "-", nan: "NaN", plus: "+", sep: "," },
    Row { name: "ln", dec: ",", group: 0, inf: "\u{221e}", min: "-", nan: "NaN", plus: "+", sep: "." },
    Row { name: "ln-AO", dec: ",", group: 0, inf: "\u{221e}", min: "-", nan: "NaN", plus: "+", sep: "." },
    Row { name: "ln-CF", dec: ",", group: 0, inf: "\u{221e}", min: "-", nan: "NaN", plus: "+", sep: "." },
    Row { name: "ln-CG", dec: ",", group: 0, inf: "\u{221e}", min: "-", nan: "NaN", plus: "+", sep: "." },
    Row { name: "lo", dec: ",", group: 0, inf: "\u{221e}", min: "-", nan: "ບ\u{ecd}\u{ec8}\u{200b}ແມ\u{ec8}ນ\u{200b}ໂຕ\u{200b}ເລກ", plus: "+", sep: "." },
    Row { name: "lrc", dec: "\u{66b}", group: 0, inf: "\u{221e}", min: "\u{200e}-\u{200e}", nan: "NaN", plus: "\u{200e}+\u{200e}", sep: "\u{66c}" },
    Row { name: "lrc-IQ", dec: "\u{66b}", group: 0, inf: "\u{221e}", min: "\u{200e}-\u{200e}", nan: "NaN", plus: "\u{200e}+\u{200e}", sep: "\u{66c}" },
    Row { name: "lt", dec: ",", group: 0, inf: "\u{221e}", min: "\u{2212}", nan: "NaN", plus: "+", sep: "\u{a0}" },
    Row { name: "lu", dec: ",", group: 0, inf: "\u{221e}", min: "-", nan: "NaN", plus: "+", sep: "." },
    Row { name: "luo", dec: ".", group: 0, inf: "\u{221e}", min: "-", nan: "NaN", plus: "+", sep: "," },
    Row { name: "luy", dec: ".", group: 0, inf: "\u{221e}", min: "-", nan: "NaN", plus: "+", sep: "," },
    Row { name: "lv", dec: ",", group: 0, inf: "\u{221e}", min: "-", nan: "NS", plus: "+", sep: "\u{a0}" },
    Row { name: "mas", dec: ".", group: 0, inf: "\u{221e}", min: "-", nan: "NaN", plus: "+", sep: "," },
    Row { name: "mas-TZ", dec: ".", group: 0, inf: "\u{221e}", min: "-", nan: "NaN", plus: "+", sep: "," },
    Row { name: "mer", dec: ".", group: 0, inf: "\u{221e}", min: "-", nan: "NaN", plus: "+", sep: "," },
    Row { name: "mfe", dec: ".", group: 0, inf: "\u{221e}", min: "-", nan: "NaN", plus: "+", sep: "\u{a0}" },
    Row { name: "mg", dec: ".", group: 0, inf: "\u{221e}", min: "-", nan: "NaN", plus: "+", sep: "," },
    Row { name: "mgh", dec: ",", group: 0, inf: "\u{221e}", min: "-", nan: "NaN", plus: "+", sep: "." },
    Row { name: "mgo", dec: ".", group: 0, inf: "\u{221e}", min: "-", nan: "NaN", plus: "+", sep: "," },
    Row { name: "mi", dec: ".", group: 0, inf: "\u{221e}", min: "-", nan: "NaN", plus: "+", sep: "," },
    Row { name: "mk", dec: ",", group: 0, inf: "\u{221e}", min: "-", nan: "NaN", plus: "+", sep: "." },
    Row { name: "ml", dec: ".", group: 1, inf: "\u{221e}", min: "-", nan: "NaN", plus: "+", sep: "," },
    Row { name: "mn", dec: ".", group: 0, inf: "\u{221e}", min: "-", nan: "NaN", plus: "+", sep: "," },
    Row { name: "mr", dec: ".", group: 1, inf: "\u{221e}", min: "-", nan: "NaN", plus: "+", sep: "," },
    Row { name: "ms", dec: ".", group: 0, inf: "\u{221e}", min: "-", nan: "NaN", plus: "+", sep: "," },
    Row { name: "ms-BN", dec: ",", group: 0, inf: "\u{221e}", min: "-", nan: "NaN", plus: "+", sep: "." },
    Row { name: "ms-SG", dec: ".", group: 0, inf: "\u{221e}", min: "-", nan: "NaN", plus: "+", sep: "," },
    Row { name: "mt", dec: ".", group: 0, inf: "\u{221e}", min: "-", nan: "NaN", plus: "+", sep: "," },
];

/// Returns the rows from place 320 to place 383.
pub fn rows() -> &'static [Row]
    ensures { ShowsAll result.now (piece 5) }
{
    &ROWS
}
