use crate::{TextWriter, cut_at, decimal_len, parse_decimal, parse_digits};
use std::test::Fail;

#[test]
fn numbers_are_written(rt: HostRuntime) -> Result<(), Fail> {
    let mut writer = TextWriter::with_capacity(rt.alloc(), 0)?;
    writer.push_number(0u8)?;
    writer.push_byte(b' ')?;
    writer.push_number(u64::MAX)?;
    writer.push_bytes(b", ")?;
    writer.push_number(u128::MAX)?;
    let text = writer.into_bytes();
    assert_eq!(rt;
        text.as_slice(),
        b"0 18446744073709551615, 340282366920938463463374607431768211455".as_slice()
    );
    assert_eq!(rt; decimal_len(0), 1);
    assert_eq!(rt; decimal_len(9), 1);
    assert_eq!(rt; decimal_len(10), 2);
    assert_eq!(rt; decimal_len(u64::MAX), 20);
    Ok(())
}

// Texts with the greatest number that they may be, and what each reader says.
static NUMBERS: [(&str, u64, Option<u64>, Option<u64>); 9] = [
    ("", 9, None, None),
    ("0", 9, Some(0), Some(0)),
    ("00", 9, Some(0), None),
    ("010", 10, Some(10), None),
    ("10", 9, None, None),
    ("1 ", 9, None, None),
    ("+1", 9, None, None),
    (
        "18446744073709551615",
        u64::MAX,
        Some(u64::MAX),
        Some(u64::MAX),
    ),
    ("18446744073709551616", u64::MAX, None, None),
];

#[test]
fn numbers_are_read(rt: HostRuntime) {
    for (text, most, digits, decimal) in NUMBERS {
        assert_eq!(rt; parse_digits(text.as_bytes(), most), digits, "of {text}");
        assert_eq!(rt; parse_decimal(text.as_bytes(), most), decimal, "of {text}");
    }
}

#[test]
fn text_is_cut_at_the_first_byte(rt: HostRuntime) {
    let cut = cut_at(b"a,b,c", b',');
    assert_eq!(rt; cut.map(|parts| parts.0.len()), Some(1));
    assert_eq!(rt; cut.map(|parts| parts.1.len()), Some(3));
    assert_eq!(rt; cut_at(b"abc", b',').is_none(), true);
}
