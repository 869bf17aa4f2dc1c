ghost use Rattle.std.specs.Prelude.{◌≡◌};
ghost use Rattle.std.specs.Str.{str_eq_ignore_ascii_case};
ghost use Rattle.grant_words.specs.Classes.{is, word};
ghost use Rattle.grant_words.specs.Classes.Class.{mark};

use crate::Lexeme;
use acl_grammar::Class;
use grant_lex::Kind;

/// A keyword, in any ASCII case.
#[derive(Drop)]
pub struct Keyword(pub &'static str);

impl Class<Lexeme> for Keyword {
    ghost is = { λ keyword. is (word keyword.0.now) };

    #[tactic(auto, unfolding(crate::specs::Classes::is))]
    fn has(&self, token: &Lexeme) -> bool {
        token.kind == Kind::Word && is_same_word(self.0, token.value.as_str())
    }
}

fn is_same_word(word: &str, text: &str) -> bool
    ensures { result ≡ str_eq_ignore_ascii_case word.now text.now }
{
    word.eq_ignore_ascii_case(text)
}

/// A mark, one of the bytes `@ , . ( ) * = ;`.
#[derive(Drop)]
pub struct Mark(pub u8);

impl Class<Lexeme> for Mark {
    ghost is = { λ mark_of. is (mark mark_of.0) };

    #[tactic(auto, unfolding(crate::specs::Classes::is))]
    fn has(&self, token: &Lexeme) -> bool {
        match token.kind {
            Kind::Mark(byte) => byte == self.0,
            Kind::Word | Kind::Quoted | Kind::Backquoted => false,
        }
    }
}
