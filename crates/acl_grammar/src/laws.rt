//! Laws of the reader of every sane grammar.

ghost use Rattle.std.specs.Prelude.{◌≡◌, ◌++◌, Ok, Err, List, false};
ghost use Rattle.acl_grammar.specs.Exactness.{Stopped, Took};
ghost use Rattle.acl_grammar.specs.Grammar.{Grammar};
ghost use Rattle.acl_grammar.specs.Grammar.Grammar.{empty};
ghost use Rattle.acl_grammar.specs.Reader.{Sane, begins, goes_on, read, read_whole};
ghost use Rattle.acl_grammar.specs.Spelling.{Refused, spells};

use std::marker::Brand;

/// Some sane grammar over tokens of some type. A caller of a law picks the grammar.
pub trait SaneGrammar {
    ghost Token: { Type 0 };

    ghost Meaning: { Type 0 };

    ghost grammar: { Grammar Token Meaning };

    ghost sane: { Sane grammar };
}

impl SaneGrammar for Brand {
    ghost Token = { Unit {0} };

    ghost Meaning = { Unit {0} };

    ghost grammar = { empty (tt {0}) };

    ghost sane = { tt {0} };
}

/// What is read is spelled by a front, of whose rest the next token alone counts. Where the reader stops,
/// some spelling begins with what it took. What is spelled is read, where the rest cannot go on.
pub fn reader_is_exact<G: SaneGrammar>()
    ensures took { (tokens : List G.Token) (value : G.Meaning) (rest : List G.Token) → read G.grammar tokens ≡ Ok (value, rest)
        → Took (spells G.grammar) (read G.grammar) tokens value rest }
    ensures stopped { (tokens bad : List G.Token) → read G.grammar tokens ≡ Err bad
        → Stopped (spells G.grammar) (read G.grammar) tokens bad }
    ensures all { (front : List G.Token) (value : G.Meaning) (rest : List G.Token) → spells G.grammar front value
        → begins (goes_on G.grammar) rest ≡ false → read G.grammar (front ++ rest) ≡ Ok (value, rest) }
{}

/// Of whole lists just what is spelled is read, and the others are refused where no spelling goes on.
pub fn whole_reader_is_exact<G: SaneGrammar>()
    ensures found { (tokens : List G.Token) (value : G.Meaning) → read_whole G.grammar tokens ≡ Ok value → spells G.grammar tokens value }
    ensures only { (tokens : List G.Token) (value : G.Meaning) → spells G.grammar tokens value → read_whole G.grammar tokens ≡ Ok value }
    ensures refused { (tokens bad : List G.Token) → read_whole G.grammar tokens ≡ Err bad → Refused (spells G.grammar) tokens bad }
{}

/// A list is refused at one place, and only where it spells nothing.
pub fn lists_are_refused_once<G: SaneGrammar>()
    ensures once { (tokens bad other : List G.Token) → Refused (spells G.grammar) tokens bad
        → Refused (spells G.grammar) tokens other → bad ≡ other }
    ensures unspelled { (tokens bad : List G.Token) (value : G.Meaning) → Refused (spells G.grammar) tokens bad
        → spells G.grammar tokens value → ⊥ }
{}
