//! Records, fields and lines by RFC 4180 and by hand.
use crate::{
    Cause, Codec, Dialect, Field, FieldRange, ListError, NameError, Plan, RecordEnd, Selector,
    Separation, Text, Within, convert, field_named, find_ranges, record_end,
};
use std::alloc::{AllocError, Global};
use std::test::Fail;

/// The text that [`Commas`] returns.
#[derive(Drop)]
struct Pair([u8; 3]);

/// A codec of two digits, between which a comma is written.
#[derive(Drop)]
struct Commas;

impl Text for Pair {
    ghost use Rattle.std.specs.Prelude.{List, ℕ};

    ghost bytes = { λ pair. pair.0 };

    fn as_bytes(&self) -> &[u8] {
        &self.0
    }
}

impl Codec for Commas {
    ghost use Rattle.regroup_core.specs.Examples.{with_comma};

    type Text = Pair;

    type Error = u8;

    ghost converted = { λ _ text. with_comma text };

    fn convert(&self, text: &[u8]) -> Result<Pair, u8> {
        match text {
            [first, second] => Ok(Pair([*first, b',', *second])),
            _ => Err(7),
        }
    }
}

const CSV: Dialect = Dialect {
    separation: Separation::Quoted(b','),
    line_end: b'\n',
};

#[test]
fn records_of_rfc_4180(rt: HostRuntime) -> Result<(), Fail> {
    let mut within = Within::Start;
    let text = b"aaa,\"b\nb\"\"\nb\",ccc\r\nzzz";
    let first = record_end(CSV, &mut within, text);
    assert_eq!(rt;
        first,
        RecordEnd {
            end: Some(18),
            line_ends: 3
        }
    );
    assert!(rt; !within.is_inside());
    assert_eq!(rt;
        record_end(CSV, &mut within, b"1,\"a\n"),
        RecordEnd {
            end: None,
            line_ends: 1
        }
    );
    assert!(rt; within.is_inside());
    assert_eq!(rt;
        record_end(CSV, &mut within, b"\"\n"),
        RecordEnd {
            end: Some(1),
            line_ends: 1
        }
    );
    Ok(())
}

#[test]
fn a_field_in_quotes(rt: HostRuntime) -> Result<(), Fail> {
    let field = Field::of(Separation::Quoted(b','), b"\" 1\t\" ");
    assert!(rt; field.is_in_quotes);
    assert_eq!(rt;
        (field.before, field.text),
        (b" ".as_slice(), b"1".as_slice())
    );
    assert_eq!(rt;
        (field.after, field.tail),
        (b"\t".as_slice(), b" ".as_slice())
    );
    Ok(())
}

/// Converts a record with fields 2, 3 and all from 5 on.
fn converted(
    alloc: Global,
    separation: Separation,
    record: &[u8],
) -> Result<(Result<(), Cause<u8>>, Vec<u8>), AllocError> {
    let list = [
        FieldRange {
            first: 2,
            last: Some(3),
        },
        FieldRange {
            first: 5,
            last: None,
        },
    ];
    let dialect = Dialect {
        separation,
        line_end: b'\n',
    };
    let plan = Plan {
        dialect,
        list: &list,
        copies_empty: true,
    };
    let mut out = b">".to_vec(alloc)?;
    let appended = convert(&plan, &Commas, record, &mut out);
    Ok((appended, out))
}

#[test]
fn lines(rt: HostRuntime) -> Result<(), Fail> {
    let (tabs, csv) = (Separation::Delimited(b'\t'), Separation::Quoted(b';'));
    let cases: [(Separation, &[u8], &[u8]); 4] = [
        (tabs, b"12\t34\t 56\t78\t90\r", b">12\t3,4\t 5,6\t78\t9,0\r"),
        (
            csv,
            b"\"1\"2;34;\" 56\" ;\"7;8\";;",
            b">\"1\"2;3,4; 5,6 ;\"7;8\";;",
        ),
        (
            Separation::Quoted(b','),
            b"1,\"34\",56,\"\",78",
            b">1,\"3,4\",\"5,6\",\"\",\"7,8\"",
        ),
        (
            Separation::Blanks,
            b" a  12 34 b   56 \r",
            b"> a  1,2 3,4 b   5,6 \r",
        ),
    ];
    for (separation, record, line) in cases {
        let (appended, out) = converted(rt.alloc(), separation, record)?;
        assert_eq!(rt; appended, Ok(()));
        assert_eq!(rt; out.as_slice(), line);
    }
    Ok(())
}

#[test]
fn causes(rt: HostRuntime) -> Result<(), Fail> {
    let (tabs, csv) = (Separation::Delimited(b'\t'), Separation::Quoted(b','));
    let cases: [(Separation, &[u8], Cause<u8>); 4] = [
        (tabs, b"12\t34\t56\t78", Cause::Few(4, 5)),
        (tabs, b"12\t34\t5x6\t78", Cause::Refused(3, 7)),
        (csv, b"1,\"12\"3,4,5,6", Cause::Quote(2)),
        (Separation::Blanks, b" \r", Cause::Few(0, 5)),
    ];
    for (separation, record, cause) in cases {
        let (appended, out) = converted(rt.alloc(), separation, record)?;
        assert_eq!(rt; appended, Err(cause));
        assert_eq!(rt; out.as_slice(), b">".as_slice());
    }
    Ok(())
}

#[test]
fn names(rt: HostRuntime) {
    let (csv, header) = (
        Separation::Quoted(b','),
        b"id, net ,\"net \"\"EUR\"\"\",id\r",
    );
    assert_eq!(rt; field_named(csv, header, b"net"), Ok(2));
    assert_eq!(rt; field_named(csv, header, b"net \"EUR\""), Ok(3));
    assert_eq!(rt; field_named(csv, header, b"id"), Err(NameError::Doubled));
    assert_eq!(rt; field_named(csv, header, b"NET"), Err(NameError::Unknown));
    assert_eq!(rt; field_named(Separation::Blanks, b"  a  b \r", b"b"), Ok(2));
    assert_eq!(rt;
        field_named(Separation::Blanks, b"  a  b \r", b""),
        Err(NameError::Unknown)
    );
}

#[test]
fn ranges(rt: HostRuntime) -> Result<(), Fail> {
    let (all, name) = (
        FieldRange {
            first: 5,
            last: None,
        },
        Selector::Name(b"net"),
    );
    let list = [name, Selector::Range(all), name];
    let tabs = Separation::Delimited(b'\t');
    let found = find_ranges(rt.alloc(), tabs, b"id\tnet", &list)
        .ok()
        .ok_or("no ranges")?;
    let net = FieldRange {
        first: 2,
        last: Some(2),
    };
    assert_eq!(rt; found.as_slice(), [net, all, net].as_slice());
    let refused = find_ranges(rt.alloc(), tabs, b"net", &[name, Selector::Name(b"id")]).err();
    assert_eq!(rt; refused, Some(ListError::Name(1, NameError::Unknown)));
    Ok(())
}
