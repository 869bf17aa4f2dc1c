//! Tokens of texts, their faults, and what they stand for.
use grant_lex::{Kind, LexRefusal, tokens, value_of};
use std::alloc::Global;
use std::process::Abort;
use std::test::Fail;

// A text, and its tokens or its fault.
struct Cut {
    text: &'static str,
    tokens: &'static str,
}

#[rattlefmt::skip]
static TEXTS: [Cut; 34] = [
    Cut { text: "", tokens: "" },
    Cut { text: " \t ", tokens: "" },
    Cut { text: "a$_9Z", tokens: "word 0-5 " },
    Cut { text: "gr\u{f6}\u{df}e \u{a0}", tokens: "word 0-7 word 8-10 " },
    Cut { text: "\tGRANT\tr ", tokens: "word 1-6 word 7-8 " },
    Cut { text: "''", tokens: "quoted 0-2 " },
    Cut { text: "'it''s'", tokens: "quoted 0-7 " },
    Cut { text: "\"a\"\"'b\"", tokens: "quoted 0-7 " },
    Cut { text: "'a\\%b\\_c'", tokens: "quoted 0-9 " },
    Cut { text: "'a\\''", tokens: "quoted 0-5 " },
    Cut { text: "'\\\\' '\\\"'", tokens: "quoted 0-4 quoted 5-9 " },
    Cut { text: "'\0\n'", tokens: "quoted 0-4 " },
    Cut { text: "``", tokens: "backquoted 0-2 " },
    Cut { text: "`a``b` `\\`", tokens: "backquoted 0-6 backquoted 7-10 " },
    Cut { text: "'a'\"b\"`c`d", tokens: "quoted 0-3 quoted 3-6 backquoted 6-9 word 9-10 " },
    Cut { text: "u@'%',s.*", tokens: "word 0-1 mark64 1-2 quoted 2-5 mark44 5-6 word 6-7 mark46 7-8 mark42 8-9 " },
    Cut { text: "(a)=;", tokens: "mark40 0-1 word 1-2 mark41 2-3 mark61 3-4 mark59 4-5 " },
    Cut { text: "\0", tokens: "bad byte at 0" },
    Cut { text: "a\0", tokens: "bad byte at 1" },
    Cut { text: "a %", tokens: "bad byte at 2" },
    Cut { text: "a-b", tokens: "bad byte at 1" },
    Cut { text: "a\r", tokens: "bad byte at 1" },
    Cut { text: "\u{7f}", tokens: "bad byte at 0" },
    Cut { text: "\\", tokens: "bad byte at 0" },
    Cut { text: "'a\\x'", tokens: "bad byte at 2" },
    Cut { text: "'a\\x", tokens: "bad byte at 2" },
    Cut { text: "'\\\u{e9}'", tokens: "bad byte at 1" },
    Cut { text: "'a", tokens: "unclosed at 0" },
    Cut { text: "'a'  'b", tokens: "unclosed at 5" },
    Cut { text: "'a''", tokens: "unclosed at 0" },
    Cut { text: "'\\'", tokens: "unclosed at 0" },
    Cut { text: "a 'b\\", tokens: "unclosed at 2" },
    Cut { text: "`a\\x", tokens: "unclosed at 0" },
    Cut { text: "\"it's %", tokens: "unclosed at 0" },
];

fn kind_text(alloc: Global, kind: Kind) -> Result<String, Fail> {
    Ok(match kind {
        Kind::Word => String::from_str(alloc, "word")?,
        Kind::Quoted => String::from_str(alloc, "quoted")?,
        Kind::Backquoted => String::from_str(alloc, "backquoted")?,
        Kind::Mark(byte) => format!(in alloc; "mark{byte}")?,
    })
}

fn cut_text(rt: &impl Abort, alloc: Global, text: &str) -> Result<String, Fail> {
    assert!(rt; text.len() < 1_000);
    let mut cut = String::new(alloc);
    match tokens(alloc, text) {
        Ok(tokens) => {
            for token in tokens.as_slice() {
                let kind = kind_text(alloc, token.kind)?;
                let one = format!(in alloc; "{kind} {}-{} ", token.from, token.to)?;
                cut.push_str(one.as_str())?;
            }
            Ok(cut)
        }
        Err(LexRefusal::BadByte { offset }) => Ok(format!(in alloc; "bad byte at {offset}")?),
        Err(LexRefusal::Unclosed { offset }) => Ok(format!(in alloc; "unclosed at {offset}")?),
        Err(LexRefusal::NoMemory) => Ok(String::from_str(alloc, "no memory")?),
    }
}

#[test]
fn cuts_texts_into_tokens_or_tells_the_first_fault(rt: HostRuntime) -> Result<(), Fail> {
    for case in &TEXTS {
        let read = cut_text(&rt, rt.alloc(), case.text)?;
        assert_eq!(rt; read.as_str(), case.tokens, "at {:?}", case.text);
    }
    Ok(())
}

#[rattlefmt::skip]
static VALUES: [(&str, &str); 10] = [
    ("word$", "word$"),
    ("''", ""),
    ("'it''s'", "it's"),
    ("\"a\"\"b''\"", "a\"b''"),
    ("'\\\\\\'\\\"'", "\\'\""),
    ("'\\%\\_'", "\\%\\_"),
    ("'\u{e9}''\u{1f600}'", "\u{e9}'\u{1f600}"),
    ("'`'", "`"),
    ("`a``b\\`", "a`b\\"),
    ("``", ""),
];

#[test]
fn gives_the_values_of_tokens(rt: HostRuntime) -> Result<(), Fail> {
    for (text, expected) in &VALUES {
        let value = value_of(rt.alloc(), text)?;
        assert_eq!(rt; value.as_str(), *expected, "at {text:?}");
    }
    Ok(())
}
