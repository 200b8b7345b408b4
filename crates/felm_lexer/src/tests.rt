use crate::{LexFault, Symbol, TokenKind, WordKind, is_name, keyword, tokens};
use std::alloc::Global;
use std::process::Abort;
use std::test::Fail;

const NAME: TokenKind = TokenKind::Name;

const INPUT: TokenKind = TokenKind::Word(WordKind::Input);

const MAIN: TokenKind = TokenKind::Word(WordKind::Main);

const INT: TokenKind = TokenKind::Word(WordKind::Int);

const LIFT1: TokenKind = TokenKind::Word(WordKind::Lift1);

const BACKSLASH: TokenKind = TokenKind::Mark(Symbol::Backslash);

const COLON: TokenKind = TokenKind::Mark(Symbol::Colon);

const DOT: TokenKind = TokenKind::Mark(Symbol::Dot);

const EQUALS: TokenKind = TokenKind::Mark(Symbol::Equals);

const ARROW: TokenKind = TokenKind::Mark(Symbol::Arrow);

const OPEN: TokenKind = TokenKind::Mark(Symbol::OpenBracket);

const CLOSE: TokenKind = TokenKind::Mark(Symbol::CloseBracket);

const MINUS: TokenKind = TokenKind::Mark(Symbol::Minus);

const DOUBLE_SLASH: TokenKind = TokenKind::Mark(Symbol::DoubleSlash);

const DOUBLE_EQUALS: TokenKind = TokenKind::Mark(Symbol::DoubleEquals);

const SLASH_EQUALS: TokenKind = TokenKind::Mark(Symbol::SlashEquals);

const LESS_EQUALS: TokenKind = TokenKind::Mark(Symbol::LessEquals);

/// The kind of a token, and the places where it starts and ends.
type Span = (TokenKind, usize, usize);

fn check_tokens(
    rt: &impl Abort,
    alloc: Global,
    text: &[u8],
    want: &[Span],
) -> Result<(), LexFault> {
    let found = tokens(alloc, text)?;
    assert_eq!(rt; found.len(), want.len(), "in {text:?}");
    for (token, (kind, start, end)) in found.as_slice().iter().zip(want) {
        assert_eq!(rt; token.kind, *kind, "in {text:?}");
        assert_eq!(rt; token.start, *start, "in {text:?}");
        assert_eq!(rt; token.end, *end, "in {text:?}");
    }
    Ok(())
}

#[test]
fn reads_what_no_grammar_takes(rt: HostRuntime) -> Result<(), Fail> {
    let cut_short = [
        (INPUT, 0, 5),
        (NAME, 6, 7),
        (COLON, 8, 9),
        (INT, 10, 13),
        (EQUALS, 14, 15),
        (TokenKind::Int(0), 16, 17),
        (MAIN, 18, 22),
        (EQUALS, 23, 24),
        (TokenKind::Word(WordKind::Let), 25, 28),
        (NAME, 29, 30),
        (EQUALS, 31, 32),
    ];
    check_tokens(
        &rt,
        rt.alloc(),
        b"input x : int = 0\nmain = let y =",
        &cut_short,
    )?;
    let twice = [(INPUT, 0, 5), (NAME, 6, 7), (INPUT, 8, 13), (NAME, 14, 15)];
    check_tokens(&rt, rt.alloc(), b"input x\ninput x", &twice)?;
    let nested = [
        (OPEN, 0, 1),
        (OPEN, 1, 2),
        (NAME, 2, 3),
        (CLOSE, 3, 4),
        (CLOSE, 4, 5),
    ];
    check_tokens(&rt, rt.alloc(), b"((x))", &nested)?;
    Ok(())
}

#[test]
fn reads_a_program(rt: HostRuntime) -> Result<(), Fail> {
    let text = b"input x : int = 0\nmain = lift1 (\\n:int. 9223372036854775808) x\n";
    let want = [
        (INPUT, 0, 5),
        (NAME, 6, 7),
        (COLON, 8, 9),
        (INT, 10, 13),
        (EQUALS, 14, 15),
        (TokenKind::Int(0), 16, 17),
        (MAIN, 18, 22),
        (EQUALS, 23, 24),
        (LIFT1, 25, 30),
        (OPEN, 31, 32),
        (BACKSLASH, 32, 33),
        (NAME, 33, 34),
        (COLON, 34, 35),
        (INT, 35, 38),
        (DOT, 38, 39),
        (TokenKind::Big, 40, 59),
        (CLOSE, 59, 60),
        (NAME, 61, 62),
    ];
    check_tokens(&rt, rt.alloc(), text, &want)?;
    Ok(())
}

#[test]
fn reads_texts(rt: HostRuntime) -> Result<(), Fail> {
    let cases: [(&[u8], &[Span]); 18] = [
        (b"", &[]),
        (b"x -- c", &[(NAME, 0, 1)]),
        (b"--", &[]),
        (b"---->\n1", &[(TokenKind::Int(1), 6, 7)]),
        (b"--\t\r ~\n\tx\r\n", &[(NAME, 8, 9)]),
        (
            b"lift lift0 lift1 lift10",
            &[(NAME, 0, 4), (NAME, 5, 10), (LIFT1, 11, 16), (NAME, 17, 23)],
        ),
        (b"int int_ Int", &[(INT, 0, 3), (NAME, 4, 8), (NAME, 9, 12)]),
        (b"_ _9", &[(NAME, 0, 1), (NAME, 2, 4)]),
        (b"1x", &[(TokenKind::Int(1), 0, 1), (NAME, 1, 2)]),
        (b"007", &[(TokenKind::Int(7), 0, 3)]),
        (
            b"9223372036854775807",
            &[(TokenKind::Int(9_223_372_036_854_775_807), 0, 19)],
        ),
        (b"009223372036854775808", &[(TokenKind::Big, 0, 21)]),
        (
            b"-9223372036854775808",
            &[(MINUS, 0, 1), (TokenKind::Big, 1, 20)],
        ),
        (b"- ->-", &[(MINUS, 0, 1), (ARROW, 2, 4), (MINUS, 4, 5)]),
        (b"===", &[(DOUBLE_EQUALS, 0, 2), (EQUALS, 2, 3)]),
        (
            b"/==<==",
            &[
                (SLASH_EQUALS, 0, 2),
                (EQUALS, 2, 3),
                (LESS_EQUALS, 3, 5),
                (EQUALS, 5, 6),
            ],
        ),
        (
            b"//-1",
            &[
                (DOUBLE_SLASH, 0, 2),
                (MINUS, 2, 3),
                (TokenKind::Int(1), 3, 4),
            ],
        ),
        (b"a->-- c\n.", &[(NAME, 0, 1), (ARROW, 1, 3), (DOT, 8, 9)]),
    ];
    for (text, want) in cases {
        check_tokens(&rt, rt.alloc(), text, want)?;
    }
    Ok(())
}

#[test]
fn finds_first_faults(rt: HostRuntime) {
    let cases: [(&[u8], LexFault); 19] = [
        (
            b"input x : int = 0\nmain = x & x\n",
            LexFault::Byte { at: 27 },
        ),
        (
            b"input x : int = 0\nmain = lift1 (\\n:int. 9223372036854775809) x\n",
            LexFault::Wide { at: 40 },
        ),
        (b"&", LexFault::Byte { at: 0 }),
        (b"a / b", LexFault::Byte { at: 2 }),
        (b"a|b", LexFault::Byte { at: 1 }),
        (b"&&&", LexFault::Byte { at: 2 }),
        (b"///", LexFault::Byte { at: 2 }),
        (b"x!=y", LexFault::Byte { at: 1 }),
        (b"x'", LexFault::Byte { at: 1 }),
        (b"\x00", LexFault::Byte { at: 0 }),
        (b"x\x7f", LexFault::Byte { at: 1 }),
        (b"# \x80", LexFault::Byte { at: 0 }),
        (b"x --c\x7f\n#", LexFault::Byte { at: 5 }),
        (b"--c\n--\x80", LexFault::Byte { at: 6 }),
        (b"--\x1f 9223372036854775809", LexFault::Byte { at: 2 }),
        (b"12 9223372036854775809", LexFault::Wide { at: 3 }),
        (b"009223372036854775809", LexFault::Wide { at: 0 }),
        (b"-18446744073709551616", LexFault::Wide { at: 1 }),
        (b"99999999999999999999999999x #", LexFault::Wide { at: 0 }),
    ];
    for (text, want) in cases {
        match tokens(rt.alloc(), text) {
            Ok(_) => assert!(rt; false, "no fault in {text:?}"),
            Err(fault) => assert_eq!(rt; fault, want, "in {text:?}"),
        }
    }
}

#[test]
fn reads_each_keyword(rt: HostRuntime) -> Result<(), Fail> {
    let cases: [(&[u8], WordKind); 26] = [
        (b"input", WordKind::Input),
        (b"main", WordKind::Main),
        (b"let", WordKind::Let),
        (b"in", WordKind::In),
        (b"if", WordKind::If),
        (b"then", WordKind::Then),
        (b"else", WordKind::Else),
        (b"int", WordKind::Int),
        (b"unit", WordKind::Unit),
        (b"signal", WordKind::Signal),
        (b"foldp", WordKind::Foldp),
        (b"async", WordKind::Async),
        (b"lift1", WordKind::Lift1),
        (b"lift2", WordKind::Lift2),
        (b"lift3", WordKind::Lift3),
        (b"lift4", WordKind::Lift4),
        (b"lift5", WordKind::Lift5),
        (b"lift6", WordKind::Lift6),
        (b"lift7", WordKind::Lift7),
        (b"lift8", WordKind::Lift8),
        (b"lift9", WordKind::Lift9),
        (b"merge", WordKind::Merge),
        (b"sampleOn", WordKind::SampleOn),
        (b"dropRepeats", WordKind::DropRepeats),
        (b"keepIf", WordKind::KeepIf),
        (b"output", WordKind::Output),
    ];
    for (text, word) in cases {
        assert_eq!(rt; keyword(text), Some(word), "at {text:?}");
        check_tokens(
            &rt,
            rt.alloc(),
            text,
            &[(TokenKind::Word(word), 0, text.len())],
        )?;
    }
    Ok(())
}

#[test]
fn reads_each_symbol(rt: HostRuntime) -> Result<(), Fail> {
    let cases: [(&[u8], Symbol); 20] = [
        (b"\\", Symbol::Backslash),
        (b":", Symbol::Colon),
        (b".", Symbol::Dot),
        (b"=", Symbol::Equals),
        (b"->", Symbol::Arrow),
        (b"(", Symbol::OpenBracket),
        (b")", Symbol::CloseBracket),
        (b"+", Symbol::Plus),
        (b"-", Symbol::Minus),
        (b"*", Symbol::Star),
        (b"//", Symbol::DoubleSlash),
        (b"%", Symbol::Percent),
        (b"==", Symbol::DoubleEquals),
        (b"/=", Symbol::SlashEquals),
        (b"<", Symbol::Less),
        (b"<=", Symbol::LessEquals),
        (b">", Symbol::Greater),
        (b">=", Symbol::GreaterEquals),
        (b"&&", Symbol::DoubleAmpersand),
        (b"||", Symbol::DoubleBar),
    ];
    for (text, symbol) in cases {
        check_tokens(
            &rt,
            rt.alloc(),
            text,
            &[(TokenKind::Mark(symbol), 0, text.len())],
        )?;
    }
    Ok(())
}

#[test]
fn tells_names(rt: HostRuntime) {
    let cases: [(&[u8], bool); 12] = [
        (b"x", true),
        (b"_", true),
        (b"Step_2", true),
        (b"lift0", true),
        (b"lift10", true),
        (b"sampleon", true),
        (b"", false),
        (b"2x", false),
        (b"a-b", false),
        (b"x ", false),
        (b"signal", false),
        (b"keepIf", false),
    ];
    for (text, want) in cases {
        assert_eq!(rt; is_name(text), want, "at {text:?}");
    }
}
