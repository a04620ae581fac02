//! The rows from `uz-Arab` to `zu`. Written by tools/locales.py from specs/; do not edit.
ghost use Rattle.num_format_cldr.specs.Entry.{ShowsAll};
ghost use Rattle.num_format_cldr.specs.Table.{piece};

use crate::Row;

#[rattlefmt::skip]
static ROWS: [Row; 30] = [
    Row { name: "uz-Arab", dec: "\u{66b}", group: 0, inf: "\u{221e}", min: "\u{200e}-\u{200e}", nan: "NaN", plus: "\u{200e}+\u{200e}", sep: "\u{66c}" },
    Row { name: "uz-Cyrl", dec: ",", group: 0, inf: "\u{221e}", min: "-", nan: "ҳақиқий\u{a0}сон\u{a0}эмас", plus: "+", sep: "\u{a0}" },
    Row { name: "uz-Latn", dec: ",", group: 0, inf: "\u{221e}", min: "-", nan: "son\u{a0}emas", plus: "+", sep: "\u{a0}" },
    Row { name: "vai", dec: ".", group: 0, inf: "\u{221e}", min: "-", nan: "NaN", plus: "+", sep: "," },
    Row { name: "vai-Latn", dec: ".", group: 0, inf: "\u{221e}", min: "-", nan: "NaN", plus: "+", sep: "," },
    Row { name: "vai-Vaii", dec: ".", group: 0, inf: "\u{221e}", min: "-", nan: "NaN", plus: "+", sep: "," },
    Row { name: "vi", dec: ",", group: 0, inf: "\u{221e}", min: "-", nan: "NaN", plus: "+", sep: "." },
    Row { name: "vo", dec: ".", group: 0, inf: "\u{221e}", min: "-", nan: "NaN", plus: "+", sep: "," },
    Row { name: "vun", dec: ".", group: 0, inf: "\u{221e}", min: "-", nan: "NaN", plus: "+", sep: "," },
    Row { name: "wae", dec: ",", group: 0, inf: "\u{221e}", min: "-", nan: "NaN", plus: "+", sep: "\u{2019}" },
    Row { name: "wo", dec: ",", group: 0, inf: "\u{221e}", min: "-", nan: "NaN", plus: "+", sep: "." },
    Row { name: "xh", dec: ".", group: 0, inf: "\u{221e}", min: "-", nan: "NaN", plus: "+", sep: "\u{a0}" },
    Row { name: "xog", dec: ".", group: 0, inf: "\u{221e}", min: "-", nan: "NaN", plus: "+", sep: "," },
    Row { name: "yav", dec: ",", group: 0, inf: "\u{221e}", min: "-", nan: "NaN", plus: "+", sep: "\u{a0}" },
    Row { name: "yi", dec: ".", group: 0, inf: "\u{221e}", min: "-", nan: "NaN", plus: "+", sep: "," },
    Row { name: "yo", dec: ".", group: 0, inf: "\u{221e}", min: "-", nan: "NaN", plus: "+", sep: "," },
    Row { name: "yo-BJ", dec: ".", group: 0, inf: "\u{221e}", min: "-", nan: "NaN", plus: "+", sep: "," },
    Row { name: "yue", dec: ".", group: 0, inf: "\u{221e}", min: "-", nan: "非數值", plus: "+", sep: "," },
    Row { name: "yue-Hans", dec: ".", group: 0, inf: "\u{221e}", min: "-", nan: "非数值", plus: "+", sep: "," },
    Row { name: "yue-Hant", dec: ".", group: 0, inf: "\u{221e}", min: "-", nan: "非數值", plus: "+", sep: "," },
    Row { name: "zgh", dec: ",", group: 0, inf: "\u{221e}", min: "-", nan: "NaN", plus: "+", sep: "\u{a0}" },
    Row { name: "zh", dec: ".", group: 0, inf: "\u{221e}", min: "-", nan: "NaN", plus: "+", sep: "," },
    Row { name: "zh-Hans", dec: ".", group: 0, inf: "\u{221e}", min: "-", nan: "NaN", plus: "+", sep: "," },
    Row { name: "zh-Hans-HK", dec: ".", group: 0, inf: "\u{221e}", min: "-", nan: "NaN", plus: "+", sep: "," },
    Row { name: "zh-Hans-MO", dec: ".", group: 0, inf: "\u{221e}", min: "-", nan: "NaN", plus: "+", sep: "," },
    Row { name: "zh-Hans-SG", dec: ".", group: 0, inf: "\u{221e}", min: "-", nan: "NaN", plus: "+", sep: "," },
    Row { name: "zh-Hant", dec: ".", group: 0, inf: "\u{221e}", min: "-", nan: "非數值", plus: "+", sep: "," },
    Row { name: "zh-Hant-HK", dec: ".", group: 0, inf: "\u{221e}", min: "-", nan: "非數值", plus: "+", sep: "," },
    Row { name: "zh-Hant-MO", dec: ".", group: 0, inf: "\u{221e}", min: "-", nan: "非數值", plus: "+", sep: "," },
    Row { name: "zu", dec: ".", group: 0, inf: "\u{221e}", min: "-", nan: "NaN", plus: "+", sep: "," },
];

/// Returns the rows from place 512 to place 541.
pub fn rows() -> &'static [Row]
    ensures { ShowsAll result.now (piece 8) }
{
    &ROWS
}
