//! Words that are operands, and no options.
ghost use Rattle.std.specs.Prelude.{◌≡◌, string_bytes};
ghost use Rattle.std.specs.List.{list_all};
ghost use Rattle.program_words.specs.Forms.{is_operand};

/// Whether no word begins with `-`.
pub(crate) fn are_operands(words: &[String]) -> bool
    ensures { result ≡ list_all (λ word. is_operand (string_bytes word)) words.now }
{
    words.iter().all(|word| is_operand(word))
}

fn is_operand(word: &String) -> bool
    ensures { result ≡ is_operand (string_bytes word.now) }
{
    match word.as_bytes() {
        [] => true,
        [first, ..] => *first != b'-',
    }
}
