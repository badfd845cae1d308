// The values of numbers, typed numbers, times and addresses, worked out by hand; and texts that have none.
use iec_tables::elem::Elem;
use st_lexer::{Area, Width, address_value, number_value, time_value, typed_value, with_sign};

const NUMBERS: [(&str, Option<u128>); 24] = [
    ("0", Some(0)),
    ("007", Some(7)),
    ("42", Some(42)),
    ("1_000", Some(1_000)),
    ("1_2_3", Some(123)),
    ("2#0", Some(0)),
    ("2#1010", Some(10)),
    ("2#1_0", Some(2)),
    ("8#17", Some(15)),
    ("16#0F", Some(15)),
    ("16#ff_FF", Some(65_535)),
    ("16#dead", Some(57_005)),
    ("2", Some(2)),
    ("8", Some(8)),
    ("16", Some(16)),
    (
        "340282366920938463463374607431768211455",
        Some(340_282_366_920_938_463_463_374_607_431_768_211_455),
    ),
    ("340282366920938463463374607431768211456", None),
    ("", None),
    ("1_", None),
    ("1__0", None),
    ("_1", None),
    ("2#2", None),
    ("10#5", None),
    ("1.5", None),
];

const TYPED: [(&str, Option<(Elem, bool, u128)>); 21] = [
    ("INT#5", Some((Elem::Int, false, 5))),
    ("int#-5", Some((Elem::Int, true, 5))),
    ("Sint#+16#7f", Some((Elem::Sint, false, 127))),
    ("DINT#-2#1_1", Some((Elem::Dint, true, 3))),
    ("LINT#8#10", Some((Elem::Lint, false, 8))),
    ("USINT#300", Some((Elem::Usint, false, 300))),
    ("UINT#0", Some((Elem::Uint, false, 0))),
    ("UDINT#1", Some((Elem::Udint, false, 1))),
    ("ULINT#-0", Some((Elem::Ulint, true, 0))),
    ("BYTE#16#FF", Some((Elem::Byte, false, 255))),
    ("WORD#2#1", Some((Elem::Word, false, 1))),
    ("DWORD#9", Some((Elem::Dword, false, 9))),
    ("LWORD#10", Some((Elem::Lword, false, 10))),
    ("BOOL#1", Some((Elem::Bool, false, 1))),
    ("BOOL#TRUE", Some((Elem::Bool, false, 1))),
    ("bool#False", Some((Elem::Bool, false, 0))),
    ("INT#TRUE", None),
    ("TIME#5", None),
    ("INT#", None),
    ("INT#--5", None),
    ("BOOL#-TRUE", None),
];

const TIMES: [(&str, Option<i64>); 26] = [
    ("T#0s", Some(0)),
    ("T#5s", Some(5_000)),
    ("t#5ms", Some(5)),
    ("T#5m", Some(300_000)),
    ("TIME#1h", Some(3_600_000)),
    ("time#1D", Some(86_400_000)),
    ("T#-1s", Some(-1_000)),
    ("T#1d2h3m4s5ms", Some(93_784_005)),
    ("T#1d_2h_3m_4s_5ms", Some(93_784_005)),
    ("T#90m", Some(5_400_000)),
    ("T#25h_70s", Some(90_070_000)),
    ("T#1.5s", Some(1_500)),
    ("T#1h0.5m", Some(3_630_000)),
    ("T#0.001s", Some(1)),
    ("T#1.000ms", Some(1)),
    ("T#2.25d", Some(194_400_000)),
    ("T#9223372036854775807ms", Some(9_223_372_036_854_775_807)),
    ("T#-9223372036854775808ms", Some(-9_223_372_036_854_775_808)),
    ("T#9223372036854775808ms", None),
    ("T#0.0001s", None),
    ("T#1s_2h", None),
    ("T#1s1s", None),
    ("T#1.5s5ms", None),
    ("T#5", None),
    ("T#", None),
    ("5s", None),
];

const ADDRESSES: [(&str, Option<(Area, Width, &str)>); 16] = [
    ("%I0", Some((Area::Input, Width::Bit, "0"))),
    ("%IX0.1", Some((Area::Input, Width::Bit, "0.1"))),
    ("%qb12", Some((Area::Output, Width::Byte, "12"))),
    ("%MW1.02.3", Some((Area::Memory, Width::Word, "1.02.3"))),
    ("%mD4", Some((Area::Memory, Width::DoubleWord, "4"))),
    ("%QL007", Some((Area::Output, Width::LongWord, "007"))),
    (
        "%IW99999999999999999999999999999999999999999",
        Some((
            Area::Input,
            Width::Word,
            "99999999999999999999999999999999999999999",
        )),
    ),
    ("%I", None),
    ("%IX", None),
    ("%X0", None),
    ("%IW1.", None),
    ("%IW.1", None),
    ("%IW1..2", None),
    ("%IW1_0", None),
    ("IW1", None),
    ("%", None),
];

/// Whether a number has this value.
fn has_number(text: &str, value: Option<u128>) -> bool {
    number_value(text.as_bytes()) == value
}

/// Whether a typed number has this type, sign and size.
fn has_typed(text: &str, value: Option<(Elem, bool, u128)>) -> bool {
    typed_value(text.as_bytes()).map(|v| (v.elem, v.negative, v.size)) == value
}

/// Whether a time has this value in milliseconds.
fn has_time(text: &str, value: Option<i64>) -> bool {
    time_value(text.as_bytes()) == value
}

/// Whether an address has this area, width and numbers.
fn has_address(text: &str, value: Option<(Area, Width, &str)>) -> bool {
    match (address_value(text.as_bytes()), value) {
        (None, None) => true,
        (Some(found), Some((area, width, numbers))) => {
            found.area == area && found.width == width && found.numbers == numbers.as_bytes()
        }
        _ => false,
    }
}

#[test]
fn values_of_numbers(rt: HostRuntime) {
    for (text, value) in &NUMBERS {
        assert!(rt; has_number(text, *value), "{text}");
    }
    assert!(rt; with_sign(true, 5) == Some(-5));
    assert!(rt; with_sign(false, 5) == Some(5));
    assert!(rt; with_sign(true, 1 << 127).is_none());
}

#[test]
fn values_of_typed_numbers(rt: HostRuntime) {
    for (text, value) in &TYPED {
        assert!(rt; has_typed(text, *value), "{text}");
    }
}

#[test]
fn values_of_times(rt: HostRuntime) {
    for (text, value) in &TIMES {
        assert!(rt; has_time(text, *value), "{text}");
    }
}

#[test]
fn values_of_addresses(rt: HostRuntime) {
    for (text, value) in &ADDRESSES {
        assert!(rt; has_address(text, *value), "{text}");
    }
    assert!(rt; Width::LongWord.elem() == Elem::Lword);
}
