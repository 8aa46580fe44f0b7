//! Texts and their tokens, or the first fault.
use brisk_lex::{LexFault, Mark, Placed, Token, Word, tokens};
use brisk_values::Name;
use std::alloc::Global;
use std::process::Abort;
use std::test::Fail;

fn fault_of(rt: &impl Abort, alloc: Global, text: &[u8]) -> Option<LexFault> {
    assert!(rt; text.len() <= 16_777_216);
    tokens(alloc, text).err()
}

fn only_token(rt: &impl Abort, alloc: Global, text: &[u8]) -> Result<Option<Placed>, LexFault> {
    assert!(rt; text.len() <= 16_777_216);
    let tokens = tokens(alloc, text)?;
    match tokens.as_slice() {
        [only] => Ok(Some(*only)),
        _ => Ok(None),
    }
}

#[test]
fn each_fault_names_its_byte(rt: HostRuntime) {
    let long_name = [b'a'; 65];
    let mut long_and_broken = [b'a'; 66];
    long_and_broken[65] = 0xFF;
    let mut fits_and_ends = [b'a'; 65];
    fits_and_ends[64] = 0xC3;
    let cases: [(&[u8], LexFault); 24] = [
        (b"\xFF", LexFault::NotUtf8(0)),
        (b"a\x80", LexFault::NotUtf8(1)),
        (b"\xE2\x82\xFF", LexFault::NotUtf8(2)),
        (b"\xED\xA0\x80", LexFault::NotUtf8(1)),
        (b"\xE0\x80", LexFault::NotUtf8(1)),
        (b"\xF4\x90", LexFault::NotUtf8(1)),
        (b"\xF0\x9F\x98", LexFault::NotUtf8(3)),
        (b"\xF5", LexFault::NotUtf8(0)),
        (b"\xC0\x80", LexFault::NotUtf8(0)),
        (b"a \xE2\x82", LexFault::NotUtf8(4)),
        (b"// \xFF", LexFault::NotUtf8(3)),
        (b"&\xFF", LexFault::BadChar(0)),
        (b"a&\xE2\x82", LexFault::BadChar(1)),
        (b"a /b", LexFault::BadChar(2)),
        (b"a | | b", LexFault::BadChar(2)),
        (b"\xCE\xB1 \xE2\x82\xAC", LexFault::BadChar(3)),
        (b"\xEF\xBB\xBFa", LexFault::BadChar(0)),
        (b"a\x0Bb", LexFault::BadChar(1)),
        (b"$ \xFF", LexFault::BadChar(0)),
        (b" 9223372036854775809", LexFault::NumberTooLarge(1)),
        (b"1 99999999999999999999999999", LexFault::NumberTooLarge(2)),
        (&long_name, LexFault::NameTooLong(0)),
        (&long_and_broken, LexFault::NameTooLong(0)),
        (&fits_and_ends, LexFault::NotUtf8(65)),
    ];
    for (text, fault) in cases {
        assert_eq!(rt; fault_of(&rt, rt.alloc(), text), Some(fault), "at {text:?}");
    }
}

const TOKENS: [(&[u8], Token); 55] = [
    (b"enum", Token::Word(Word::KwEnum)),
    (b"channel", Token::Word(Word::KwChannel)),
    (b"one", Token::Word(Word::KwOne)),
    (b"many", Token::Word(Word::KwMany)),
    (b"nonempty", Token::Word(Word::KwNonempty)),
    (b"var", Token::Word(Word::KwVar)),
    (b"input", Token::Word(Word::KwInput)),
    (b"int", Token::Word(Word::KwInt)),
    (b"bool", Token::Word(Word::KwBool)),
    (b"true", Token::Word(Word::KwTrue)),
    (b"false", Token::Word(Word::KwFalse)),
    (b"send", Token::Word(Word::KwSend)),
    (b"to", Token::Word(Word::KwTo)),
    (b"recv", Token::Word(Word::KwRecv)),
    (b"from", Token::Word(Word::KwFrom)),
    (b"any", Token::Word(Word::KwAny)),
    (b"in", Token::Word(Word::KwIn)),
    (b"if", Token::Word(Word::KwIf)),
    (b"else", Token::Word(Word::KwElse)),
    (b"while", Token::Word(Word::KwWhile)),
    (b"for", Token::Word(Word::KwFor)),
    (b"repeat", Token::Word(Word::KwRepeat)),
    (b"begin", Token::Word(Word::KwBegin)),
    (b"end", Token::Word(Word::KwEnd)),
    (b"box", Token::Word(Word::KwBox)),
    (b"pick", Token::Word(Word::KwPick)),
    (b"loose", Token::Word(Word::KwLoose)),
    (b"{", Token::Mark(Mark::LBrace)),
    (b"}", Token::Mark(Mark::RBrace)),
    (b"(", Token::Mark(Mark::LParen)),
    (b")", Token::Mark(Mark::RParen)),
    (b",", Token::Mark(Mark::Comma)),
    (b";", Token::Mark(Mark::Semi)),
    (b":", Token::Mark(Mark::Colon)),
    (b":=", Token::Mark(Mark::Assign)),
    (b"=", Token::Mark(Mark::Equals)),
    (b".", Token::Mark(Mark::Dot)),
    (b"#", Token::Mark(Mark::Hash)),
    (b"+", Token::Mark(Mark::Plus)),
    (b"-", Token::Mark(Mark::Minus)),
    (b"*", Token::Mark(Mark::Star)),
    (b"==", Token::Mark(Mark::EqEq)),
    (b"!=", Token::Mark(Mark::NotEq)),
    (b"<", Token::Mark(Mark::Less)),
    (b"<=", Token::Mark(Mark::LessEq)),
    (b">", Token::Mark(Mark::Greater)),
    (b">=", Token::Mark(Mark::GreaterEq)),
    (b"&&", Token::Mark(Mark::AndAnd)),
    (b"||", Token::Mark(Mark::OrOr)),
    (b"!", Token::Mark(Mark::Bang)),
    (b"0", Token::Num(0)),
    (b"007", Token::Num(7)),
    (b"00000000000000000000000000000000000010", Token::Num(10)),
    (
        b"9223372036854775807",
        Token::Num(9_223_372_036_854_775_807),
    ),
    (
        b"9223372036854775808",
        Token::Num(9_223_372_036_854_775_808),
    ),
];

#[test]
fn each_word_mark_and_number_has_its_spelling(rt: HostRuntime) -> Result<(), Fail> {
    for (text, token) in TOKENS {
        assert_eq!(rt;
            only_token(&rt, rt.alloc(), text)?,
            Some(Placed { token, at: 0 }),
            "of {text:?}"
        );
    }
    Ok(())
}

#[test]
fn names_are_of_any_script(rt: HostRuntime) -> Result<(), Fail> {
    let longest = [b'a'; 64];
    let names: [&[u8]; 8] = [
        b"_",
        b"x1",
        b"ifx",
        b"If",
        b"\xCE\xA9",
        b"\xCE\xB1\xCC\x81_2",
        b"\xE5\x90\x8D\xE5\x89\x8D",
        &longest,
    ];
    for bytes in names {
        let token = Token::Name(Name::new(bytes).ok_or("no name")?);
        assert_eq!(rt;
            only_token(&rt, rt.alloc(), bytes)?,
            Some(Placed { token, at: 0 })
        );
    }
    Ok(())
}

#[test]
fn tokens_stand_between_spaces_and_comments(rt: HostRuntime) -> Result<(), Fail> {
    let text = b"// first\r\n\tx:===1a//\xCE\xA9\n  // last";
    let places = [
        (Token::Name(Name::of(b"x")), 11),
        (Token::Mark(Mark::Assign), 12),
        (Token::Mark(Mark::EqEq), 14),
        (Token::Num(1), 16),
        (Token::Name(Name::of(b"a")), 17),
    ];
    let found = tokens(rt.alloc(), text)?;
    assert_eq!(rt; found.len(), places.len());
    for (found, (token, at)) in found.iter().zip(places) {
        assert_eq!(rt; *found, Placed { token, at });
    }
    let blank: [&[u8]; 4] = [b"", b" \t\r\n", b"//", b"// a\n//\n"];
    for text in blank {
        assert!(rt; text.len() <= 16_777_216);
        assert!(rt; tokens(rt.alloc(), text)?.is_empty());
    }
    Ok(())
}
