ghost use Rattle.std.specs.Prelude.{◌≡◌, ℕ, List};
ghost use Rattle.grant_lex.specs.Printed.{ArePrinted, Printed, printed, tokens_of};
ghost use Rattle.grant_lex.specs.Token.{HasFault, IsCut};
ghost use Rattle.grant_lex.specs.Value.{StandsForValue, value_of};
ghost use Rattle.grant_lex.specs.declared.refusal.LexRefusal.{LexRefusal};
ghost use Rattle.grant_lex.specs.declared.sorts.Token.{Token};

/// A text has one list of tokens at most, or one fault, and never both.
pub fn texts_have_one_reading()
    ensures tokens { (text : List ℕ) (ts us : List Token) → IsCut text ts → IsCut text us → ts ≡ us }
    ensures faults { (text : List ℕ) (f g : LexRefusal) → HasFault text f → HasFault text g → f ≡ g }
    ensures apart { (text : List ℕ) (ts : List Token) (f : LexRefusal) → IsCut text ts → HasFault text f → ⊥ }
{}

/// What a string or a name in backquotes stands for is one value, and `value_of` gives it.
pub fn values_are_meant()
    ensures { (text value : List ℕ) → StandsForValue text value → value_of text ≡ value }
{}

/// A text that is written token by token, with blanks where one would go on with the next, is cut into just these.
pub fn printed_tokens_are_read()
    ensures { (parts : List Printed) → ArePrinted parts → IsCut (printed parts) (tokens_of 0 parts) }
{}
