ghost use Rattle.std.specs.Prelude.{◌≡◌, ◌⊎◌, ◌+◌, ◌<◌, ◌^◌, ℕ, ◌∷◌, length, IfOk, IfErr};
ghost use Rattle.grant_lex.specs.Class.{class_of};
ghost use Rattle.grant_lex.specs.Inside.{IsNextInside, is_escaped, spelling};
ghost use Rattle.grant_lex.specs.Token.{Fails, IsQuotedFront};
ghost use Rattle.grant_lex.specs.declared.class.Class.TheVariants.{Quote, Backquote};

use crate::refusal::LexRefusal;

/// A piece of what stands between quotes.
#[derive(Clone, Copy)]
pub(crate) enum Piece {
    /// A byte that stands for itself.
    Plain(u8),
    /// The quote twice, which stands for the quote.
    Doubled,
    /// A backslash and this byte.
    Escaped(u8),
}

impl Piece {
    pub(crate) fn length(self) -> usize
        ensures { (quote : ℕ) → result ≡ length (spelling quote self) }
    {
        match self {
            Piece::Plain(_) => 1,
            Piece::Doubled | Piece::Escaped(_) => 2,
        }
    }
}

/// What comes next between quotes.
#[derive(Clone, Copy)]
pub(crate) enum Inside {
    Next(Piece),
    Closing,
    BadPair,
    Open,
}

fn is_escaped(byte: u8) -> bool
    ensures { result ≡ is_escaped byte }
{
    matches!(byte, b'\\' | b'\'' | b'"' | b'%' | b'_')
}

/// What `bytes` begin with, where they stand behind an opening `quote`.
pub(crate) fn next_inside(quote: u8, bytes: &[u8]) -> Inside
    ensures { IsNextInside quote bytes.now result }
{
    match bytes {
        [] => Inside::Open,
        [byte] if *byte == quote => Inside::Closing,
        [b'\\'] if quote != b'`' => Inside::Open,
        [byte] => Inside::Next(Piece::Plain(*byte)),
        [byte, second, ..] if *byte == quote => {
            if *second == quote {
                Inside::Next(Piece::Doubled)
            } else {
                Inside::Closing
            }
        }
        [b'\\', second, ..] if quote != b'`' => {
            if is_escaped(*second) {
                Inside::Next(Piece::Escaped(*second))
            } else {
                Inside::BadPair
            }
        }
        [byte, ..] => Inside::Next(Piece::Plain(*byte)),
    }
}

/// How many bytes a quoted token has, with both quotes; `inside` is what follows its opening `quote`,
/// which stands at `from`.
pub(crate) fn quoted_length(quote: u8, inside: &[u8], from: u32) -> Result<usize, LexRefusal>
    requires sort { (class_of quote ≡ Quote) ⊎ (class_of quote ≡ Backquote) }
    requires room { from + 1 + length inside.now < 2 ^ 32 }
    ensures ok { IfOk result (λ n. IsQuotedFront quote (quote ∷ inside.now) n) }
    ensures err { IfErr result (λ fault. Fails from (quote ∷ inside.now) fault) }
{
    let mut length = 0;
    loop {
        match next_inside(quote, &inside[length..]) {
            Inside::Next(piece) => length += piece.length(),
            Inside::Closing => return Ok(length + 2),
            Inside::BadPair => {
                let offset = from + 1 + length as u32;
                return Err(LexRefusal::BadByte { offset });
            }
            Inside::Open => return Err(LexRefusal::Unclosed { offset: from }),
        }
    }
}
