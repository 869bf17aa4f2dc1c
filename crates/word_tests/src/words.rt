//! Words and what they ask for.
use program_words::{Form, read_form};
use std::alloc::Global;
use std::test::Fail;

// Words, each behind a `|`, and the three numbers of `make` that they ask for.
struct Made {
    words: &'static str,
    number: u64,
    sessions: u64,
    lines: u64,
}

static MADE: [Made; 4] = [
    Made {
        words: "|make|0|1|1",
        number: 0,
        sessions: 1,
        lines: 1,
    },
    Made {
        words: "|make|18446744073709551615|64|199936",
        number: u64::MAX,
        sessions: 64,
        lines: 199_936,
    },
    Made {
        words: "|make|00000000000000000007|02|000003",
        number: 7,
        sessions: 2,
        lines: 3,
    },
    Made {
        words: "|make|10000000000000000000|10|100000",
        number: 10_000_000_000_000_000_000,
        sessions: 10,
        lines: 100_000,
    },
];

static STEPS: [&str; 4] = [
    "|step|first.acl|first.journal",
    "|step||",
    "|step|a b|make",
    "|step|help|a--b",
];

// Words that are none of the forms.
static NONE: [&str; 34] = [
    "",
    "|",
    "|step",
    "|step|a",
    "|step|a|b|c",
    "|step|a|b|c|d",
    "|STEP|a|b",
    "|step |a|b",
    "|acl|step|a|b",
    "|step|-a|b",
    "|step|a|-",
    "|step|--|-a|b",
    "|step|--|a|b",
    "|--|step|a|b",
    "|help",
    "|help|step",
    "|--help",
    "|step|-h",
    "|-V",
    "|run|a",
    "|run|a|b",
    "|grants|a",
    "|make",
    "|make|1|1",
    "|make|1|1|1|1",
    "|make|18446744073709551616|1|1",
    "|make|000000000000000000007|1|1",
    "|make|1|0|1",
    "|make|1|65|1",
    "|make|1|1|0",
    "|make|1|1|199937",
    "|make|x|1|1",
    "|make|+1|1|1",
    "|make||1 |1",
];

fn form_of(alloc: Global, text: &str) -> Result<Option<Form>, Fail> {
    let mut words = Vec::new(alloc);
    for word in text.split('|').skip(1) {
        words.push(String::from_str(alloc, word)?)?;
    }
    Ok(read_form(alloc, &words)?)
}

#[test]
fn numbers_lie_within_their_bounds(rt: HostRuntime) -> Result<(), Fail> {
    for case in &MADE {
        let wanted = Form::Make {
            number: case.number,
            sessions: case.sessions,
            lines: case.lines,
        };
        assert_eq!(rt; form_of(rt.alloc(), case.words)?, Some(wanted));
    }
    Ok(())
}

#[test]
fn a_script_and_a_journal_are_any_words(rt: HostRuntime) -> Result<(), Fail> {
    for words in &STEPS {
        assert_eq!(rt; form_of(rt.alloc(), words)?, Some(Form::Step));
    }
    Ok(())
}

#[test]
fn other_words_have_no_form(rt: HostRuntime) -> Result<(), Fail> {
    for words in &NONE {
        assert_eq!(rt; form_of(rt.alloc(), words)?, None);
    }
    Ok(())
}
