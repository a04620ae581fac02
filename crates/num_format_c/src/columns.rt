//! What the calls for columns do, with Rust's types.
ghost use Rattle.std.specs.Prelude.{◌≡◌, ◌≢◌, ℕ, ◌+◌, ◌*◌, ◌<◌, ◌≤◌, length, IsTrue};
ghost use Rattle.num_format.specs.Text.{text_of};
ghost use Rattle.num_format_decimal.specs.FixedPoint.{fixed_point};
ghost use Rattle.num_format_decimal.specs.declared.buffer.TheConstants.{MAX_DECIMAL_LEN};
ghost use Rattle.num_format_decimal.specs.declared.decimal.TheConstants.{MAX_SCALE};
ghost use Rattle.num_format_digits.specs.declared.printing.TheConstants.{MAX_DIGIT_TEXT_LEN};
ghost use Rattle.num_format_c.specs.Calls.{Parses, at_scale, crossing, returned, typed_at_scale};
ghost use Rattle.num_format_c.specs.Columns.{AreParsed, HasOffsets, Measures, MeasuresDecimals, MeasuresNumbers};
ghost use Rattle.num_format_c.specs.Columns.{MeasuresValues, ParsesDecimals, ParsesInMode, ParsesNumbers, ParsesRow};
ghost use Rattle.num_format_c.specs.Columns.{ParsesTyped, ParsesTypedInto, ParsesValues, PrintsDecimals, PrintsNumbers};
ghost use Rattle.num_format_c.specs.Columns.{PrintsRows, PrintsValues, Row, decimal_at, decimal_units, rows_in};
ghost use Rattle.num_format_c.specs.Columns.{to_parsed, to_printed};
ghost use Rattle.num_format_c.specs.FormatRef.{IsFormatIn, IsFormatOf, format_with};
ghost use Rattle.num_format_c.specs.Layout.{IsEnough, row_bytes, row_text, texts_of};

use crate::calls::{self, parse_in};
use crate::format::{FormatRef, NumFormat};
use crate::layout::{
    OffsetType, Printer, Rows, Texts, Value, Values, print_texts, row_count, set_value, texts_len,
};
use crate::status::{Cause, Status};
use crate::wide::scale_of;
use num_format::Format;
use num_format::parsing::StrictParser;
use num_format_decimal::{
    AtScale, Decimal, DecimalBuffer, DecimalParser, MAX_DECIMAL_LEN, TextParser,
};
use num_format_digits::printing::{MAX_DIGIT_TEXT_LEN, shown_len};
use num_format_digits::{DigitText, Digits};
use num_format_int::buffer::PutFront;
use num_format_int::to_formatted_str::put_text;
use num_format_typed::{TypedAtScale, TypedDecimals, TypedParser};

/// The numbers of the ways to parse a column; any other is lenient.
const STRICT: u32 = 0;

const TYPED: u32 = 2;

/// Calls a function for the integer type for which a number stands: the code of Apache Arrow's letter for it.
macro_rules! for_type {
    ($code:expr => $call:ident($($argument:expr),*)) => {
        match $code {
            0x63 => $call::<i8>($($argument),*),
            0x43 => $call::<u8>($($argument),*),
            0x73 => $call::<i16>($($argument),*),
            0x53 => $call::<u16>($($argument),*),
            0x69 => $call::<i32>($($argument),*),
            0x49 => $call::<u32>($($argument),*),
            0x6C => $call::<i64>($($argument),*),
            0x4C => $call::<u64>($($argument),*),
            0x71 => $call::<i128>($($argument),*),
            0x51 => $call::<u128>($($argument),*),
            _ => Err(Status::BadType),
        }
    };
}

/// Prints whole numbers under a format.
#[derive(Drop)]
struct NumberPrinter<'a, N: Value, F: Format> {
    rows: Rows<'a, N>,
    format: &'a F,
}

impl<'a, N: Value, F: Format> Printer for NumberPrinter<'a, N, F> {
    ghost rows = { λ p. p.rows.len };

    ghost text = { λ p. row_text N.repr (text_of (F.answers p.format.now))
        p.rows.values.bytes.now p.rows.values.validity };

    ghost MOST = { MAX_DECIMAL_LEN };

    fn most() -> usize {
        MAX_DECIMAL_LEN
    }

    fn len(&self) -> usize {
        self.rows.len
    }

    fn text_len(&self, row: usize) -> usize {
        match self.rows.get(row) {
            Some(number) => num_format::text_len(&number, self.format),
            None => 0,
        }
    }

    fn print<B: PutFront>(&self, row: usize, texts: &mut B) {
        if let Some(number) = self.rows.get(row) {
            put_text(&number, texts, self.format);
        }
    }
}

/// Prints decimals of one scale, whose units are in a column.
#[derive(Drop)]
struct DecimalPrinter<'a, F: Format> {
    rows: Rows<'a, i128>,
    format: &'a F,
    scale: u8,
    ghost bound: { scale ≤ MAX_SCALE },
}

impl<'a, F: Format> DecimalPrinter<'a, F> {
    /// Returns the decimal with these units.
    fn number(&self, units: i128) -> Decimal
        ensures { result ≡ fixed_point units self.now.scale }
    {
        match Decimal::new(units, self.scale) {
            Ok(number) => number,
            Err(_) => unreachable!(),
        }
    }
}

impl<'a, F: Format> Printer for DecimalPrinter<'a, F> {
    ghost rows = { λ p. p.rows.len };

    ghost text = { λ p. row_text decimal_units (decimal_at p.scale (F.answers p.format.now))
        p.rows.values.bytes.now p.rows.values.validity };

    ghost MOST = { MAX_DECIMAL_LEN };

    fn most() -> usize {
        MAX_DECIMAL_LEN
    }

    fn len(&self) -> usize {
        self.rows.len
    }

    fn text_len(&self, row: usize) -> usize {
        match self.rows.get(row) {
            Some(units) => num_format_decimal::text_len(&self.number(units), self.format),
            None => 0,
        }
    }

    fn print<B: PutFront>(&self, row: usize, texts: &mut B) {
        if let Some(units) = self.rows.get(row) {
            texts.put_front(DecimalBuffer::of(&self.number(units), self.format).as_str());
        }
    }
}

/// Prints in a digit set what another printer prints in `0` to `9`.
#[derive(Drop)]
struct DigitPrinter<'a, P: Printer> {
    printer: &'a P,
    digits: Digits,
    ghost bound: { P.MOST ≤ MAX_DECIMAL_LEN },
}

impl<'a, P: Printer> Printer for DigitPrinter<'a, P> {
    ghost rows = { λ p. P.rows p.printer.now };

    ghost text = { λ p. rows_in p.digits (P.text p.printer.now) };

    ghost MOST = { MAX_DIGIT_TEXT_LEN };

    fn most() -> usize {
        MAX_DIGIT_TEXT_LEN
    }

    fn len(&self) -> usize {
        self.printer.len()
    }

    fn text_len(&self, row: usize) -> usize {
        let mut ascii = DecimalBuffer::new();
        self.printer.print(row, &mut ascii);
        shown_len(ascii.as_bytes(), self.digits)
    }

    fn print<B: PutFront>(&self, row: usize, texts: &mut B) {
        let mut ascii = DecimalBuffer::new();
        self.printer.print(row, &mut ascii);
        let mut text = DigitText::new();
        text.write_text(ascii.as_str(), self.digits);
        texts.put_front(text.as_str());
    }
}

/// Prints the numbers into a column, and returns 0.
pub fn print(
    format: &NumFormat,
    value_code: u32,
    values: &Values,
    offset_code: u32,
    offsets: &mut [u8],
    bytes: &mut [u8],
    len: &mut usize,
) -> Result<i32, Status>
    ensures { PrintsNumbers value_code offset_code format.now values.now
        (to_printed offsets.old bytes.old len.old) (to_printed offsets.new bytes.new len.new) (returned result) }
{
    let offset_type = OffsetType::from_code(offset_code).ok_or(Status::BadType)?;
    for_type!(value_code => print_numbers(format, values, offset_type, offsets, bytes, len))
}

/// Prints the numbers of an integer type.
fn print_numbers<N: Value>(
    format: &NumFormat,
    values: &Values,
    offset_type: OffsetType,
    offsets: &mut [u8],
    bytes: &mut [u8],
    len: &mut usize,
) -> Result<i32, Status>
    ensures { PrintsValues N.repr text_of offset_type format.now values.now
        (to_printed offsets.old bytes.old len.old) (to_printed offsets.new bytes.new len.new) (returned result) }
{
    let (format, digits) = FormatRef::new(format)?;
    let rows = Rows::<N>::new(values)?;
    let format = &format;
    let printer = NumberPrinter { rows, format };
    print_in(&printer, digits, offset_type, offsets, bytes, len)
}

/// Prints the decimals with these units and this scale into a column, and returns 0.
pub fn print_decimals(
    format: &NumFormat,
    units: &Values,
    scale: u32,
    offset_code: u32,
    offsets: &mut [u8],
    bytes: &mut [u8],
    len: &mut usize,
) -> Result<i32, Status>
    ensures { PrintsDecimals scale offset_code format.now units.now
        (to_printed offsets.old bytes.old len.old) (to_printed offsets.new bytes.new len.new) (returned result) }
{
    let scale = scale_of(scale)?;
    let offset_type = OffsetType::from_code(offset_code).ok_or(Status::BadType)?;
    let (format, digits) = FormatRef::new(format)?;
    let rows = Rows::new(units)?;
    let printer = DecimalPrinter {
        rows,
        format: &format,
        scale,
    };
    print_in(&printer, digits, offset_type, offsets, bytes, len)
}

/// Prints the rows in a digit set into a column, and returns 0.
fn print_in<P: Printer>(
    printer: &P,
    digits: Digits,
    offset_type: OffsetType,
    offsets: &mut [u8],
    bytes: &mut [u8],
    len: &mut usize,
) -> Result<i32, Status>
    requires { P.MOST ≤ MAX_DECIMAL_LEN }
    ensures { PrintsRows (rows_in digits (P.text printer.now)) (P.rows printer.now) offset_type
        (to_printed offsets.old bytes.old len.old) (to_printed offsets.new bytes.new len.new) (returned result) }
{
    if digits.is_latin() {
        return print_rows(printer, offset_type, offsets, bytes, len);
    }
    print_rows(
        &DigitPrinter { printer, digits },
        offset_type,
        offsets,
        bytes,
        len,
    )
}

/// Prints the rows into a column, and returns 0.
fn print_rows<P: Printer>(
    printer: &P,
    offset_type: OffsetType,
    offsets: &mut [u8],
    bytes: &mut [u8],
    len: &mut usize,
) -> Result<i32, Status>
    ensures { PrintsRows (P.text printer.now) (P.rows printer.now) offset_type
        (to_printed offsets.old bytes.old len.old) (to_printed offsets.new bytes.new len.new) (returned result) }
{
    if !offset_type.is_enough(printer.len(), offsets) {
        return Err(Status::BadLength);
    }
    let total = texts_len(printer).ok_or(Status::TooManyBytes)?;
    if total > offset_type.limit() {
        return Err(Status::TooManyBytes);
    }
    if total > bytes.len() {
        return Err(Status::TooSmall);
    }
    print_texts(printer, total, offset_type, offsets, bytes);
    *len = total;
    Ok(0)
}

/// Writes how many bytes the texts of the numbers have, and returns 0.
pub fn measure(
    format: &NumFormat,
    value_code: u32,
    values: &Values,
    len: &mut usize,
) -> Result<i32, Status>
    ensures { MeasuresNumbers value_code format.now values.now len.old len.new (returned result) }
{
    for_type!(value_code => measure_numbers(format, values, len))
}

/// Writes how many bytes the texts of the numbers of an integer type have.
fn measure_numbers<N: Value>(
    format: &NumFormat,
    values: &Values,
    len: &mut usize,
) -> Result<i32, Status>
    ensures { MeasuresValues N.repr text_of format.now values.now len.old len.new (returned result) }
{
    let (format, digits) = FormatRef::new(format)?;
    let rows = Rows::<N>::new(values)?;
    let format = &format;
    measure_in(&NumberPrinter { rows, format }, digits, len)
}

/// Writes how many bytes the texts of the decimals have, and returns 0.
pub fn measure_decimals(
    format: &NumFormat,
    units: &Values,
    scale: u32,
    len: &mut usize,
) -> Result<i32, Status>
    ensures { MeasuresDecimals scale format.now units.now len.old len.new (returned result) }
{
    let scale = scale_of(scale)?;
    let (format, digits) = FormatRef::new(format)?;
    let rows = Rows::new(units)?;
    let printer = DecimalPrinter {
        rows,
        format: &format,
        scale,
    };
    measure_in(&printer, digits, len)
}

/// Writes how many bytes the texts of the rows have in a digit set, and returns 0.
fn measure_in<P: Printer>(printer: &P, digits: Digits, len: &mut usize) -> Result<i32, Status>
    requires { P.MOST ≤ MAX_DECIMAL_LEN }
    ensures { Measures (length (texts_of (rows_in digits (P.text printer.now)) (P.rows printer.now)))
        len.old len.new (returned result) }
{
    if digits.is_latin() {
        return measure_rows(printer, len);
    }
    measure_rows(&DigitPrinter { printer, digits }, len)
}

/// Writes how many bytes the texts of the rows have, and returns 0.
fn measure_rows<P: Printer>(printer: &P, len: &mut usize) -> Result<i32, Status>
    ensures { Measures (length (texts_of (P.text printer.now) (P.rows printer.now))) len.old len.new (returned result) }
{
    let total = texts_len(printer).ok_or(Status::TooManyBytes)?;
    *len = total;
    Ok(0)
}

/// What a parser returns of a row, as a value of the column: a number itself, or the units of a decimal.
trait IntoValue<N: Value> {
    ghost use Rattle.std.specs.Prelude.{ℤ};

    ghost number: { Self → ℤ };

    /// Returns the value.
    fn into_value(self) -> N
        ensures { N.value result ≡ number self };
}

impl<N: Value> IntoValue<N> for N {
    ghost number = { N.value };

    fn into_value(self) -> N {
        self
    }
}

impl IntoValue<i128> for Decimal {
    ghost number = { λ d. d.units };

    fn into_value(self) -> i128 {
        self.units()
    }
}

/// How a row of a column is parsed.
trait Parser<N: Value, T: IntoValue<N>> {
    ghost use Rattle.num_format_c.specs.Columns.{RowParser};
    ghost use Rattle.num_format_c.specs.declared.format.NumFormat.{NumFormat};

    ghost IsFor: { Self → NumFormat → Type 0 };

    ghost Returns: { Self → RowParser T };

    /// Returns the number of a text, or why there is none.
    fn parse(&self, text: &[u8]) -> Result<T, Status>
        ensures { (s : NumFormat) → IsFor self.now s → Returns self.now s text.now result };
}

/// By a format alone, parsing ignores characters that are not numeric.
impl<'a, N: Value> Parser<N, N> for FormatRef<'a> {
    ghost IsFor = { λ h. IsFormatOf (format_with h.separator h.grouping h.minus_sign h.decimal_mark) };

    ghost Returns = { λ _. Parses N.kind N.value };

    fn parse(&self, text: &[u8]) -> Result<N, Status> {
        calls::parse_under(self, text)
    }
}

/// Parses texts in a digit set.
#[derive(Drop)]
struct DigitParser<P> {
    parser: P,
    digits: Digits,
}

impl<N: Value, T: IntoValue<N>, P: TextParser<T>> Parser<N, T> for DigitParser<P>
where
    P::Error: Cause,
{
    ghost IsFor = { λ p s. IsFormatIn (P.format p.parser) p.digits s × (P.way p.parser).Takes (P.format p.parser) };

    ghost Returns = { λ p. Row (crossing (P.way p.parser) P.Error.placed P.Error.status_of P.Error.place_of) };

    fn parse(&self, text: &[u8]) -> Result<T, Status> {
        parse_in(&self.parser, self.digits, text, &mut 0)
    }
}

/// Parses the rows of a column of numbers, and returns 0.
pub fn parse(
    format: &NumFormat,
    value_code: u32,
    mode: u32,
    offset_code: u32,
    texts: &Texts,
    values: &mut [u8],
    statuses: &mut [i32],
) -> Result<i32, Status>
    ensures { ParsesNumbers value_code offset_code mode format.now texts.now
        (to_parsed values.old statuses.old) (to_parsed values.new statuses.new) (returned result) }
{
    let offset_type = OffsetType::from_code(offset_code).ok_or(Status::BadType)?;
    for_type!(value_code => parse_numbers(format, mode, offset_type, texts, values, statuses))
}

/// Parses the rows of a column of numbers of an integer type.
fn parse_numbers<N: Value>(
    format: &NumFormat,
    mode: u32,
    offset_type: OffsetType,
    texts: &Texts,
    values: &mut [u8],
    statuses: &mut [i32],
) -> Result<i32, Status>
    ensures { ParsesInMode mode N.kind N.value N.repr offset_type format.now texts.now
        (to_parsed values.old statuses.old) (to_parsed values.new statuses.new) (returned result) }
{
    match mode {
        STRICT => {
            let (format, digits) = FormatRef::new(format)?;
            let parser = StrictParser::new(&format)?;
            let parser = DigitParser { parser, digits };
            parse_column::<N, N, _>(&parser, offset_type, texts, values, statuses)
        }
        TYPED => {
            let (format, digits) = FormatRef::new(format)?;
            let parser = TypedParser::new(&format)?;
            let parser = DigitParser { parser, digits };
            parse_column::<N, N, _>(&parser, offset_type, texts, values, statuses)
        }
        _ => {
            let format = FormatRef::latin(format)?;
            parse_column::<N, N, _>(&format, offset_type, texts, values, statuses)
        }
    }
}

/// Parses a text as people type it as a number of a type, writes the bytes of the number, and returns 0.
#[inline(always)]
pub fn parse_one(
    format: &NumFormat,
    value_code: u32,
    text: &[u8],
    value: &mut [u8],
    at: &mut usize,
) -> Result<i32, Status>
    ensures { ParsesTyped value_code format.now text.now value.old value.new at.old at.new (returned result) }
{
    for_type!(value_code => parse_number(format, text, value, at))
}

/// Parses a text as people type it as a number of an integer type.
fn parse_number<N: Value>(
    format: &NumFormat,
    text: &[u8],
    value: &mut [u8],
    at: &mut usize,
) -> Result<i32, Status>
    ensures { ParsesTypedInto N.kind N.value N.repr format.now text.now value.old value.new
        at.old at.new (returned result) }
{
    let (format, digits) = FormatRef::new(format)?;
    if value.len() != N::size() {
        return Err(Status::BadLength);
    }
    match calls::parse_typed::<N, _>(&format, digits, text, at) {
        Ok(number) => {
            number.write(value);
            Ok(0)
        }
        Err(status) => Err(status),
    }
}

/// Parses the rows of a column of decimals, and returns 0.
pub fn parse_decimals(
    format: &NumFormat,
    scale: u32,
    offset_code: u32,
    texts: &Texts,
    units: &mut [u8],
    statuses: &mut [i32],
) -> Result<i32, Status>
    ensures { ParsesDecimals (at_scale scale) scale offset_code format.now texts.now
        (to_parsed units.old statuses.old) (to_parsed units.new statuses.new) (returned result) }
{
    let scale = scale_of(scale)?;
    let offset_type = OffsetType::from_code(offset_code).ok_or(Status::BadType)?;
    let (format, digits) = FormatRef::new(format)?;
    let parser = DecimalParser::new(&format)?;
    let parser = AtScale { parser, scale };
    let parser = DigitParser { parser, digits };
    parse_column::<i128, Decimal, _>(&parser, offset_type, texts, units, statuses)
}

/// Parses the rows of a column of decimals as people type them, and returns 0.
pub fn parse_typed_decimals(
    format: &NumFormat,
    scale: u32,
    offset_code: u32,
    texts: &Texts,
    units: &mut [u8],
    statuses: &mut [i32],
) -> Result<i32, Status>
    ensures { ParsesDecimals (typed_at_scale scale) scale offset_code format.now texts.now
        (to_parsed units.old statuses.old) (to_parsed units.new statuses.new) (returned result) }
{
    let scale = scale_of(scale)?;
    let offset_type = OffsetType::from_code(offset_code).ok_or(Status::BadType)?;
    let (format, digits) = FormatRef::new(format)?;
    let parser = TypedDecimals::new(&format)?;
    let typed = TypedAtScale { parser, scale };
    let parser = DigitParser {
        parser: typed,
        digits,
    };
    parse_column::<i128, Decimal, _>(&parser, offset_type, texts, units, statuses)
}

/// Parses the rows of a column, and returns 0. It is a call, so that its loop has the registers for itself.
#[inline(never)]
fn parse_column<N: Value, T: IntoValue<N>, P: Parser<N, T>>(
    parser: &P,
    offset_type: OffsetType,
    texts: &Texts,
    values: &mut [u8],
    statuses: &mut [i32],
) -> Result<i32, Status>
    ensures { (s : NumFormat) → P.IsFor parser.now s
        → ParsesValues (P.Returns parser.now) T.number N.repr offset_type s texts.now
        (to_parsed values.old statuses.old) (to_parsed values.new statuses.new) (returned result) }
{
    let Some(n) = row_count::<N>(values, &texts.validity) else {
        return Err(Status::BadLength);
    };
    if statuses.len() != n || !offset_type.is_enough(n, texts.offsets) {
        return Err(Status::BadLength);
    }
    let limit = offset_type.limit().min(texts.bytes.len());
    if !offset_type.are_offsets(n, limit, texts.offsets) {
        return Err(Status::BadOffsets);
    }
    parse_rows::<N, T, P>(parser, offset_type, texts, values, statuses);
    Ok(0)
}

/// Parses each row of a column.
fn parse_rows<N: Value, T: IntoValue<N>, P: Parser<N, T>>(
    parser: &P,
    offset_type: OffsetType,
    texts: &Texts,
    values: &mut [u8],
    statuses: &mut [i32],
)
    requires values { length values.old ≡ length statuses.old * N.repr.size }
    requires offsets { IsEnough offset_type (length statuses.old) (length texts.now.offsets.now) }
    requires within { HasOffsets offset_type texts.now (length statuses.old) }
    ensures { (s : NumFormat) → P.IsFor parser.now s
        → AreParsed (P.Returns parser.now) T.number N.repr offset_type s texts.now
        (to_parsed values.old statuses.old) (to_parsed values.new statuses.new) (length statuses.old) }
{
    for row in 0..statuses.len() {
        let start = offset_type.get(texts.offsets, row);
        let text = &texts.bytes[start..offset_type.get(texts.offsets, row + 1)];
        let is_valid = texts.validity.is_valid(row);
        statuses[row] = parse_row::<N, T, P>(parser, text, is_valid, values, row);
    }
}

/// Parses a row of a column, if it has a value, and returns its status, which is 0 if it has none.
#[inline(always)]
fn parse_row<N: Value, T: IntoValue<N>, P: Parser<N, T>>(
    parser: &P,
    text: &[u8],
    is_valid: bool,
    values: &mut [u8],
    row: usize,
) -> i32
    requires { row * N.repr.size + N.repr.size ≤ length values.old }
    ensures parsed { (s : NumFormat) → P.IsFor parser.now s
        → ParsesRow (P.Returns parser.now) T.number N.repr (IsTrue is_valid) s text.now
        (row_bytes N.repr.size values.old row) (row_bytes N.repr.size values.new row) result }
    ensures others { (k : ℕ) → k ≢ row → row_bytes N.repr.size values.new k ≡ row_bytes N.repr.size values.old k }
{
    if !is_valid {
        return 0;
    }
    match parser.parse(text) {
        Ok(number) => {
            set_value(values, row, number.into_value());
            0
        }
        Err(status) => status.code(),
    }
}
