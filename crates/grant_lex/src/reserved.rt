ghost use Rattle.std.specs.Prelude.{◌≡◌, map};
ghost use Rattle.std.specs.List.{list_any};
ghost use Rattle.std.specs.Str.{str_eq_ignore_ascii_case};
ghost use Rattle.grant_lex.specs.Reserved.{is_reserved, reserved_words};

// In capitals, by bytes.
static WORDS: [&str; 31] = [
    "ALL",
    "ALTER",
    "CREATE",
    "DEFAULT",
    "DELETE",
    "DROP",
    "EXCEPT",
    "EXISTS",
    "FOR",
    "FROM",
    "FUNCTION",
    "GRANT",
    "IF",
    "INDEX",
    "INSERT",
    "LOCK",
    "NONE",
    "NOT",
    "ON",
    "PROCEDURE",
    "REFERENCES",
    "REVOKE",
    "SELECT",
    "SET",
    "TABLE",
    "TO",
    "TRIGGER",
    "UPDATE",
    "USAGE",
    "USING",
    "WITH",
];

/// Whether `word`, in any ASCII case, is reserved, and so no name without quotes.
///
/// MySQL 8.0 Reference Manual, "Keywords and Reserved Words".
pub fn is_reserved(word: &str) -> bool
    ensures { result ≡ is_reserved word.now }
{
    is_listed(words(), word)
}

fn is_listed(names: &[&str], word: &str) -> bool
    ensures { result ≡ list_any (λ name. str_eq_ignore_ascii_case name.now word.now) names.now }
{
    names.iter().any(|name| is_same_word(name, word))
}

fn words() -> &'static [&'static str; 31]
    ensures { map (λ name. name.now) result.now ≡ reserved_words }
{
    &WORDS
}

fn is_same_word(name: &str, word: &str) -> bool
    ensures { result ≡ str_eq_ignore_ascii_case name.now word.now }
{
    name.eq_ignore_ascii_case(word)
}
