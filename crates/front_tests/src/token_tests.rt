// The tokens of texts, and the first faults of texts, both worked out by hand; and look-ups in the tables.
use iec_tables::elem::{Elem, converts};
use iec_tables::fault::FaultCode;
use iec_tables::guidelines::rules;
use iec_tables::words::keywords;
use st_lexer::{LexFault, tokens};
use std::alloc::Global;
use token_grammar::{Token, TokenKind};

/// Texts that have this first fault at this byte.
struct Faulty {
    code: FaultCode,
    at: usize,
    texts: &'static [&'static [u8]],
}

/// Texts that are one token.
const SINGLE: [(TokenKind, &str); 65] = [
    (TokenKind::Comment, "//"),
    (TokenKind::Comment, "// (* {"),
    (TokenKind::Comment, "(**)"),
    (TokenKind::Comment, "(***)"),
    (TokenKind::Comment, "(*)*)"),
    (TokenKind::Comment, "(* \u{e9} *)"),
    (TokenKind::Comment, "/**/"),
    (TokenKind::Comment, "/*/**/*/"),
    (TokenKind::Pragma, "{}"),
    (TokenKind::Pragma, "{\u{e9}}"),
    (TokenKind::Name, "_a"),
    (TokenKind::Name, "a_b1"),
    (TokenKind::Name, "a1_2c"),
    (TokenKind::If, "if"),
    (TokenKind::Name, "IfThen"),
    (TokenKind::EndIf, "eNd_If"),
    (TokenKind::Name, "ENDIF"),
    (TokenKind::Byte, "byte"),
    (TokenKind::Xor, "xor"),
    (TokenKind::Name, "xo"),
    (TokenKind::Name, "xors"),
    (TokenKind::VarInOut, "Var_In_Out"),
    (TokenKind::Action, "action"),
    (TokenKind::Time, "TIME"),
    (TokenKind::Name, "t"),
    (TokenKind::Number, "0"),
    (TokenKind::Number, "007"),
    (TokenKind::Number, "1_000"),
    (TokenKind::Number, "2#1010"),
    (TokenKind::Number, "2#1_0"),
    (TokenKind::Number, "8#777"),
    (TokenKind::Number, "16#fF"),
    (TokenKind::Number, "16#F_F_F"),
    (TokenKind::Number, "340282366920938463463374607431768211455"),
    (
        TokenKind::Number,
        "000340282366920938463463374607431768211455",
    ),
    (TokenKind::Number, "16#FFFFFFFFFFFFFFFFFFFFFFFFFFFFFFFF"),
    (
        TokenKind::Number,
        "2#11111111111111111111111111111111111111111111111111111111111111111111111111111111111111111111111111111111111111111111111111111111",
    ),
    (TokenKind::TypedNumber, "INT#5"),
    (TokenKind::TypedNumber, "int#-5"),
    (TokenKind::TypedNumber, "Int#+5"),
    (TokenKind::TypedNumber, "BYTE#16#F_F"),
    (TokenKind::TypedNumber, "LINT#-2#1"),
    (TokenKind::TypedNumber, "BOOL#1"),
    (TokenKind::TypedNumber, "BOOL#TRUE"),
    (TokenKind::TypedNumber, "bool#False"),
    (TokenKind::Duration, "T#1d"),
    (TokenKind::Duration, "t#5ms"),
    (TokenKind::Duration, "TIME#1d2h3m4s5ms"),
    (TokenKind::Duration, "time#1D_2H_3M_4S_5MS"),
    (TokenKind::Duration, "T#1h5ms"),
    (TokenKind::Duration, "T#-5s"),
    (TokenKind::Duration, "T#90m"),
    (TokenKind::Duration, "T#1.5s"),
    (TokenKind::Duration, "T#1h_0.5m"),
    (TokenKind::Duration, "T#1.0ms"),
    (TokenKind::Duration, "T#0.001s"),
    (TokenKind::Duration, "T#1.500000000s"),
    (TokenKind::Duration, "T#0.000000625d"),
    (TokenKind::Duration, "T#9223372036854775807ms"),
    (TokenKind::Duration, "T#-9223372036854775808ms"),
    (TokenKind::Address, "%IX1.2"),
    (TokenKind::Address, "%iw3"),
    (TokenKind::Address, "%M0"),
    (TokenKind::Address, "%QD1.2.3"),
    (TokenKind::Address, "%qL4"),
];

/// Texts, and how many tokens they are cut into.
const COUNTS: [(&str, usize); 64] = [
    ("2#1#", 2),
    ("", 0),
    (" \t\r\n", 0),
    ("\u{feff}", 0),
    ("\u{feff}x", 1),
    ("\u{feff} 1", 1),
    ("// a\nb", 2),
    ("// a\r\n", 1),
    ("// \u{e9}\n", 1),
    ("(* a *)b", 2),
    ("(* // *)x", 2),
    ("(* a\n*)x", 2),
    ("(* (* *) *)x", 2),
    ("(*(**)*)x", 2),
    ("(* /* *)x", 2),
    ("(* { *)x", 2),
    ("/* /* */ */x", 2),
    ("/* (* */x", 2),
    ("/* *) */x", 2),
    ("{ a }b", 2),
    ("{{}x", 2),
    ("{(* }x", 2),
    ("x.y", 3),
    ("True FALSE", 2),
    ("INITIAL_STEP non_retain", 2),
    ("a:=1;", 4),
    ("a: =1", 4),
    ("=> <= >=", 3),
    ("<> = < >", 4),
    ("+ - * **", 4),
    ("/ & ( )", 4),
    ("[ ] , ;", 4),
    (": . .. #", 4),
    ("***", 2),
    ("...", 2),
    ("<=>", 2),
    ("<>=", 2),
    (":==", 2),
    ("=>=", 2),
    ("><", 2),
    ("*)", 2),
    ("( *", 2),
    ("/ /", 2),
    ("-5", 2),
    ("1..10", 3),
    ("16#F..2", 3),
    ("1.", 2),
    ("1.a", 3),
    ("3#1", 3),
    ("02#1", 3),
    ("160#1", 3),
    ("1_6#F", 3),
    ("16 #F", 3),
    ("INT#5..6", 3),
    ("INT#5.x", 3),
    ("INT#3#1", 3),
    ("INT #5", 3),
    ("INTx#5", 3),
    ("DATE#1", 3),
    ("T#1s..T#2s", 3),
    ("TIME #1", 3),
    ("T:", 2),
    ("%I1.a", 3),
    ("%I1..2", 3),
];

/// Texts of several tokens, the number of one of them, its kind and its part of the text.
const PARTS: [(&str, usize, TokenKind, &str); 152] = [
    ("2#1#", 0, TokenKind::Number, "2#1"),
    ("2#1#", 1, TokenKind::Hash, "#"),
    ("\u{feff}x", 0, TokenKind::Name, "x"),
    ("\u{feff} 1", 0, TokenKind::Number, "1"),
    ("// a\nb", 0, TokenKind::Comment, "// a"),
    ("// a\nb", 1, TokenKind::Name, "b"),
    ("// a\r\n", 0, TokenKind::Comment, "// a\r"),
    ("// \u{e9}\n", 0, TokenKind::Comment, "// \u{e9}"),
    ("(* a *)b", 0, TokenKind::Comment, "(* a *)"),
    ("(* a *)b", 1, TokenKind::Name, "b"),
    ("(* // *)x", 0, TokenKind::Comment, "(* // *)"),
    ("(* // *)x", 1, TokenKind::Name, "x"),
    ("(* a\n*)x", 0, TokenKind::Comment, "(* a\n*)"),
    ("(* a\n*)x", 1, TokenKind::Name, "x"),
    ("(* (* *) *)x", 0, TokenKind::Comment, "(* (* *) *)"),
    ("(* (* *) *)x", 1, TokenKind::Name, "x"),
    ("(*(**)*)x", 0, TokenKind::Comment, "(*(**)*)"),
    ("(*(**)*)x", 1, TokenKind::Name, "x"),
    ("(* /* *)x", 0, TokenKind::Comment, "(* /* *)"),
    ("(* /* *)x", 1, TokenKind::Name, "x"),
    ("(* { *)x", 0, TokenKind::Comment, "(* { *)"),
    ("(* { *)x", 1, TokenKind::Name, "x"),
    ("/* /* */ */x", 0, TokenKind::Comment, "/* /* */ */"),
    ("/* /* */ */x", 1, TokenKind::Name, "x"),
    ("/* (* */x", 0, TokenKind::Comment, "/* (* */"),
    ("/* (* */x", 1, TokenKind::Name, "x"),
    ("/* *) */x", 0, TokenKind::Comment, "/* *) */"),
    ("/* *) */x", 1, TokenKind::Name, "x"),
    ("{ a }b", 0, TokenKind::Pragma, "{ a }"),
    ("{ a }b", 1, TokenKind::Name, "b"),
    ("{{}x", 0, TokenKind::Pragma, "{{}"),
    ("{{}x", 1, TokenKind::Name, "x"),
    ("{(* }x", 0, TokenKind::Pragma, "{(* }"),
    ("{(* }x", 1, TokenKind::Name, "x"),
    ("x.y", 0, TokenKind::Name, "x"),
    ("x.y", 1, TokenKind::Dot, "."),
    ("x.y", 2, TokenKind::Name, "y"),
    ("True FALSE", 0, TokenKind::True, "True"),
    ("True FALSE", 1, TokenKind::False, "FALSE"),
    (
        "INITIAL_STEP non_retain",
        0,
        TokenKind::InitialStep,
        "INITIAL_STEP",
    ),
    (
        "INITIAL_STEP non_retain",
        1,
        TokenKind::NonRetain,
        "non_retain",
    ),
    ("a:=1;", 0, TokenKind::Name, "a"),
    ("a:=1;", 1, TokenKind::Becomes, ":="),
    ("a:=1;", 2, TokenKind::Number, "1"),
    ("a:=1;", 3, TokenKind::Semicolon, ";"),
    ("a: =1", 0, TokenKind::Name, "a"),
    ("a: =1", 1, TokenKind::Colon, ":"),
    ("a: =1", 2, TokenKind::Equal, "="),
    ("a: =1", 3, TokenKind::Number, "1"),
    ("=> <= >=", 0, TokenKind::Arrow, "=>"),
    ("=> <= >=", 1, TokenKind::LessEqual, "<="),
    ("=> <= >=", 2, TokenKind::GreaterEqual, ">="),
    ("<> = < >", 0, TokenKind::NotEqual, "<>"),
    ("<> = < >", 1, TokenKind::Equal, "="),
    ("<> = < >", 2, TokenKind::Less, "<"),
    ("<> = < >", 3, TokenKind::Greater, ">"),
    ("+ - * **", 0, TokenKind::Plus, "+"),
    ("+ - * **", 1, TokenKind::Minus, "-"),
    ("+ - * **", 2, TokenKind::Star, "*"),
    ("+ - * **", 3, TokenKind::Power, "**"),
    ("/ & ( )", 0, TokenKind::Slash, "/"),
    ("/ & ( )", 1, TokenKind::Ampersand, "&"),
    ("/ & ( )", 2, TokenKind::OpenParenthesis, "("),
    ("/ & ( )", 3, TokenKind::CloseParenthesis, ")"),
    ("[ ] , ;", 0, TokenKind::OpenBracket, "["),
    ("[ ] , ;", 1, TokenKind::CloseBracket, "]"),
    ("[ ] , ;", 2, TokenKind::Comma, ","),
    ("[ ] , ;", 3, TokenKind::Semicolon, ";"),
    (": . .. #", 0, TokenKind::Colon, ":"),
    (": . .. #", 1, TokenKind::Dot, "."),
    (": . .. #", 2, TokenKind::DotDot, ".."),
    (": . .. #", 3, TokenKind::Hash, "#"),
    ("***", 0, TokenKind::Power, "**"),
    ("***", 1, TokenKind::Star, "*"),
    ("...", 0, TokenKind::DotDot, ".."),
    ("...", 1, TokenKind::Dot, "."),
    ("<=>", 0, TokenKind::LessEqual, "<="),
    ("<=>", 1, TokenKind::Greater, ">"),
    ("<>=", 0, TokenKind::NotEqual, "<>"),
    ("<>=", 1, TokenKind::Equal, "="),
    (":==", 0, TokenKind::Becomes, ":="),
    (":==", 1, TokenKind::Equal, "="),
    ("=>=", 0, TokenKind::Arrow, "=>"),
    ("=>=", 1, TokenKind::Equal, "="),
    ("><", 0, TokenKind::Greater, ">"),
    ("><", 1, TokenKind::Less, "<"),
    ("*)", 0, TokenKind::Star, "*"),
    ("*)", 1, TokenKind::CloseParenthesis, ")"),
    ("( *", 0, TokenKind::OpenParenthesis, "("),
    ("( *", 1, TokenKind::Star, "*"),
    ("/ /", 0, TokenKind::Slash, "/"),
    ("/ /", 1, TokenKind::Slash, "/"),
    ("-5", 0, TokenKind::Minus, "-"),
    ("-5", 1, TokenKind::Number, "5"),
    ("1..10", 0, TokenKind::Number, "1"),
    ("1..10", 1, TokenKind::DotDot, ".."),
    ("1..10", 2, TokenKind::Number, "10"),
    ("16#F..2", 0, TokenKind::Number, "16#F"),
    ("16#F..2", 1, TokenKind::DotDot, ".."),
    ("16#F..2", 2, TokenKind::Number, "2"),
    ("1.", 0, TokenKind::Number, "1"),
    ("1.", 1, TokenKind::Dot, "."),
    ("1.a", 0, TokenKind::Number, "1"),
    ("1.a", 1, TokenKind::Dot, "."),
    ("1.a", 2, TokenKind::Name, "a"),
    ("3#1", 0, TokenKind::Number, "3"),
    ("3#1", 1, TokenKind::Hash, "#"),
    ("3#1", 2, TokenKind::Number, "1"),
    ("02#1", 0, TokenKind::Number, "02"),
    ("02#1", 1, TokenKind::Hash, "#"),
    ("02#1", 2, TokenKind::Number, "1"),
    ("160#1", 0, TokenKind::Number, "160"),
    ("160#1", 1, TokenKind::Hash, "#"),
    ("160#1", 2, TokenKind::Number, "1"),
    ("1_6#F", 0, TokenKind::Number, "1_6"),
    ("1_6#F", 1, TokenKind::Hash, "#"),
    ("1_6#F", 2, TokenKind::Name, "F"),
    ("16 #F", 0, TokenKind::Number, "16"),
    ("16 #F", 1, TokenKind::Hash, "#"),
    ("16 #F", 2, TokenKind::Name, "F"),
    ("INT#5..6", 0, TokenKind::TypedNumber, "INT#5"),
    ("INT#5..6", 1, TokenKind::DotDot, ".."),
    ("INT#5..6", 2, TokenKind::Number, "6"),
    ("INT#5.x", 0, TokenKind::TypedNumber, "INT#5"),
    ("INT#5.x", 1, TokenKind::Dot, "."),
    ("INT#5.x", 2, TokenKind::Name, "x"),
    ("INT#3#1", 0, TokenKind::TypedNumber, "INT#3"),
    ("INT#3#1", 1, TokenKind::Hash, "#"),
    ("INT#3#1", 2, TokenKind::Number, "1"),
    ("INT #5", 0, TokenKind::Int, "INT"),
    ("INT #5", 1, TokenKind::Hash, "#"),
    ("INT #5", 2, TokenKind::Number, "5"),
    ("INTx#5", 0, TokenKind::Name, "INTx"),
    ("INTx#5", 1, TokenKind::Hash, "#"),
    ("INTx#5", 2, TokenKind::Number, "5"),
    ("DATE#1", 0, TokenKind::Name, "DATE"),
    ("DATE#1", 1, TokenKind::Hash, "#"),
    ("DATE#1", 2, TokenKind::Number, "1"),
    ("T#1s..T#2s", 0, TokenKind::Duration, "T#1s"),
    ("T#1s..T#2s", 1, TokenKind::DotDot, ".."),
    ("T#1s..T#2s", 2, TokenKind::Duration, "T#2s"),
    ("TIME #1", 0, TokenKind::Time, "TIME"),
    ("TIME #1", 1, TokenKind::Hash, "#"),
    ("TIME #1", 2, TokenKind::Number, "1"),
    ("T:", 0, TokenKind::Name, "T"),
    ("T:", 1, TokenKind::Colon, ":"),
    ("%I1.a", 0, TokenKind::Address, "%I1"),
    ("%I1.a", 1, TokenKind::Dot, "."),
    ("%I1.a", 2, TokenKind::Name, "a"),
    ("%I1..2", 0, TokenKind::Address, "%I1"),
    ("%I1..2", 1, TokenKind::DotDot, ".."),
    ("%I1..2", 2, TokenKind::Number, "2"),
];

const FAULTY: [Faulty; 17] = [
    Faulty {
        code: FaultCode::NotUtf8,
        at: 0,
        texts: &[
            b"\xff",
            b"\x80a",
            b"\xed\xa0\x80",
            b"\xf4\x90\x80\x80",
            b"\xef\xbb",
        ],
    },
    Faulty {
        code: FaultCode::NotUtf8,
        at: 1,
        texts: &[b"~\xff"],
    },
    Faulty {
        code: FaultCode::NotUtf8,
        at: 2,
        texts: &[b"ab\xc0\x80"],
    },
    Faulty {
        code: FaultCode::NotUtf8,
        at: 3,
        texts: &[b"(* \xc3"],
    },
    Faulty {
        code: FaultCode::NotUtf8,
        at: 5,
        texts: &[b"x__y \xff"],
    },
    Faulty {
        code: FaultCode::BadByte,
        at: 0,
        texts: &[
            b"~",
            b"$",
            b"@",
            b"!",
            b"^",
            b"'",
            b"\"a\"",
            b"}",
            b"\x00",
            b"\x0c",
            b"\xc3\xa9",
            b"%",
            b"%Q",
            b"%I.",
            b"%X1",
            b"%IX",
            b"%IB.1",
            b"% I1",
        ],
    },
    Faulty {
        code: FaultCode::BadByte,
        at: 1,
        texts: &[b"a\xef\xbb\xbf", b"a\xc3\xa9"],
    },
    Faulty {
        code: FaultCode::BadByte,
        at: 2,
        texts: &[b"a ~", b"a ~ (*"],
    },
    Faulty {
        code: FaultCode::OpenComment,
        at: 0,
        texts: &[
            b"{ x",
            b"(*",
            b"(*)",
            b"(* *",
            b"/*/",
            b"(* (* *)",
            b"/* /* */",
            b"(* */",
            b"/* *)",
            b"(*(*)*)",
            b"{ (* *)",
            b"/*/*/*/*/",
        ],
    },
    Faulty {
        code: FaultCode::OpenComment,
        at: 1,
        texts: &[b"x{"],
    },
    Faulty {
        code: FaultCode::OpenComment,
        at: 2,
        texts: &[b"a (* *", b"\n /*"],
    },
    Faulty {
        code: FaultCode::BadNumber,
        at: 0,
        texts: &[
            b"16#G",
            b"16#",
            b"2#2",
            b"2#",
            b"8#8",
            b"8#1_",
            b"16#_F",
            b"16#F_",
            b"16#F__F",
            b"16#FG",
            b"2#1012",
            b"16#F.5",
            b"1a",
            b"1_",
            b"1__0",
            b"1_a",
            b"1.5",
            b"1.5e3",
            b"5e3",
            b"340282366920938463463374607431768211456",
            b"16#100000000000000000000000000000000",
            b"2#100000000000000000000000000000000000000000000000000000000000000000000000000000000000000000000000000000000000000000000000000000000",
            b"INT#",
            b"INT#a",
            b"INT#--5",
            b"INT#5a",
            b"INT#5_",
            b"INT#1.5",
            b"INT#16#G",
            b"INT#16#",
            b"INT# 5",
            b"INT#-",
            b"UINT#2#2",
            b"BOOL#",
            b"BOOL#TRU",
            b"BOOL#TRUEX",
            b"BYTE#TRUE",
            b"INT#340282366920938463463374607431768211456",
            b"T#",
            b"TIME#",
            b"T#1",
            b"T#-",
            b"T#d",
            b"T#+5s",
            b"T#--1s",
            b"T#1s2m",
            b"T#1s1s",
            b"T#1ms1s",
            b"T#1d__2h",
            b"T#_1d",
            b"T#1d_",
            b"T#1_0m",
            b"T#1x",
            b"T#1dx",
            b"T#1.5",
            b"T#1.s",
            b"T#.5s",
            b"T#1.5h2m",
            b"T#0.0001s",
            b"T#0.5ms",
            b"T#1.0000000000s",
            b"T#9223372036854775808ms",
            b"T#-9223372036854775809ms",
            b"T#106751991168d",
        ],
    },
    Faulty {
        code: FaultCode::BadNumber,
        at: 1,
        texts: &[b" T#1d2d"],
    },
    Faulty {
        code: FaultCode::BadNumber,
        at: 3,
        texts: &[b"\xef\xbb\xbf1a"],
    },
    Faulty {
        code: FaultCode::BadNumber,
        at: 4,
        texts: &[b"a + 1a x__y"],
    },
    Faulty {
        code: FaultCode::BadName,
        at: 0,
        texts: &[
            b"x__y", b"a_", b"_", b"__a", b"a__", b"if_", b"END__IF", b"int_#5", b"T_#1d",
            b"x__y 1a",
        ],
    },
    Faulty {
        code: FaultCode::BadName,
        at: 2,
        texts: &[b"a a_"],
    },
];

/// Whether the text is cut into so many tokens.
fn has_count(alloc: Global, text: &str, count: usize) -> bool {
    match &tokens(alloc, text.as_bytes()) {
        Ok(found) => found.list.len() == count,
        Err(_) => false,
    }
}

/// Whether the token is of this kind, and this part of the text.
fn is_part(token: &Token, text: &str, kind: TokenKind, part: &str) -> bool {
    token.kind == kind && text.as_bytes().get(token.start..token.end) == Some(part.as_bytes())
}

/// Whether the token of this number is of this kind, and this part of the text.
fn has_token(alloc: Global, text: &str, at: usize, kind: TokenKind, part: &str) -> bool {
    match &tokens(alloc, text.as_bytes()) {
        Ok(found) => match found.list.get(at) {
            Some(token) => is_part(token, text, kind, part),
            None => false,
        },
        Err(_) => false,
    }
}

#[test]
fn single_tokens(rt: HostRuntime) {
    for (kind, text) in &SINGLE {
        assert!(rt; has_count(rt.alloc(), text, 1), "{text}");
        assert!(rt; has_token(rt.alloc(), text, 0, *kind, text), "{text}");
    }
}

#[test]
fn numbers_of_tokens(rt: HostRuntime) {
    for (text, count) in &COUNTS {
        assert!(rt; has_count(rt.alloc(), text, *count), "{text}");
    }
}

#[test]
fn several_tokens(rt: HostRuntime) {
    for (text, at, kind, part) in &PARTS {
        assert!(rt; has_token(rt.alloc(), text, *at, *kind, part), "{text}");
    }
}

/// Whether the first fault of a text is this one.
fn is_faulty(alloc: Global, text: &[u8], wanted: FaultCode, place: usize) -> bool {
    let found = tokens(alloc, text);
    match &found {
        Err(LexFault::At { code, at }) => *code == wanted && *at == place,
        _ => false,
    }
}

#[test]
fn faulty_texts(rt: HostRuntime) {
    for row in &FAULTY {
        for (index, text) in row.texts.iter().enumerate() {
            assert!(rt;
                is_faulty(rt.alloc(), text, row.code, row.at),
                "text {index}"
            );
        }
    }
}

#[test]
fn keyword_rows(rt: HostRuntime) {
    assert!(rt; keywords().find(b"byte") == Some(6));
    assert!(rt; keywords().find(b"xor") == Some(79));
    assert!(rt; keywords().find(b"xo").is_none());
    assert!(rt; keywords().find(b"Action") == Some(0));
    assert!(rt; keywords().find(b"").is_none());
    assert!(rt; keywords().find(b"xors").is_none());
}

#[test]
fn conversions(rt: HostRuntime) {
    assert!(rt; converts(Elem::Int, Elem::Dint));
    assert!(rt; !converts(Elem::Dint, Elem::Int));
    assert!(rt; converts(Elem::Uint, Elem::Dint));
    assert!(rt; !converts(Elem::Uint, Elem::Int));
    assert!(rt; !converts(Elem::Int, Elem::Uint));
    assert!(rt; converts(Elem::Byte, Elem::Lword));
    assert!(rt; !converts(Elem::Byte, Elem::Usint));
    assert!(rt; converts(Elem::Bool, Elem::Bool));
    assert!(rt; !converts(Elem::Bool, Elem::Byte));
    assert!(rt; !converts(Elem::Time, Elem::Lint));
}

/// Whether the rule of this number is there, with this code.
fn has_rule(number: u8, code: u8) -> bool {
    match rules().find(number) {
        Some(rule) => rule.code == code,
        None => false,
    }
}

#[test]
fn rule_rows(rt: HostRuntime) {
    assert!(rt; rules().find(0).is_none());
    assert!(rt; has_rule(1, 1));
    assert!(rt; has_rule(24, 24));
    assert!(rt; rules().find(25).is_none());
}
