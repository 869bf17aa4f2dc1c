//! The lines of bytes.
ghost use Rattle.std.specs.Prelude.{◌≡◌, ◌≢◌, ℕ, ◌<◌, ◌≤◌, ◌∷◌, [], length, slice_index, IfSome, IsNone};
ghost use Rattle.std.specs.List.{list_all};
ghost use Rattle.std.specs.Str.Lines.{lines, strip_carriage_return};
ghost use Rattle.grant_lex.specs.Class.{is_blank};
ghost use Rattle.script_lines.specs.Texts.{is_comment, is_passed_over};

/// The first line, and the bytes of the other lines.
pub(crate) fn first_line(bytes: &[u8]) -> Option<(&[u8], &[u8])>
    ensures none { IsNone result → bytes.now ≡ [] }
    ensures first { IfSome result (λ parts. lines bytes.now ≡ parts.0.now ∷ lines parts.1.now) }
    ensures shorter { IfSome result (λ parts. length parts.1.now < length bytes.now) }
    ensures within { IfSome result (λ parts. length parts.0.now ≤ length bytes.now) }
{
    if bytes.is_empty() {
        return None;
    }
    let end = line_end(bytes);
    if end == bytes.len() {
        return Some((bytes, &bytes[end..]));
    }
    Some((without_return(&bytes[..end]), &bytes[end + 1..]))
}

// Where the first line ends.
fn line_end(bytes: &[u8]) -> usize
    ensures within { result ≤ length bytes.now }
    ensures before { (k : ℕ) → k < result → slice_index bytes.now k ≢ 10 }
    ensures ends { result < length bytes.now → slice_index bytes.now result ≡ 10 }
{
    for (place, byte) in bytes.iter().enumerate() {
        if *byte == b'\n' {
            return place;
        }
    }
    bytes.len()
}

// What stands before a line feed, without the carriage return at its end, if it has one.
fn without_return(line: &[u8]) -> &[u8]
    ensures { result.now ≡ strip_carriage_return line.now }
{
    match line {
        [front @ .., b'\r'] => front,
        _ => line,
    }
}

/// The number of all lines.
pub(crate) fn count_lines(bytes: &[u8]) -> usize
    requires { length bytes.now ≤ 16777216 }
    ensures { result ≡ length (lines bytes.now) }
{
    let mut count = 0;
    let mut rest = bytes;
    while let Some((_, behind)) = first_line(rest) {
        count += 1;
        rest = behind;
    }
    count
}

/// Whether a line is passed over.
pub(crate) fn is_without_command(line: &[u8]) -> bool
    ensures { result ≡ is_passed_over line.now }
{
    is_all_blank(line) || begins_comment(line)
}

fn is_all_blank(line: &[u8]) -> bool
    ensures { result ≡ list_all is_blank line.now }
{
    line.iter().all(|byte| *byte == b' ' || *byte == b'\t')
}

fn begins_comment(line: &[u8]) -> bool
    ensures { result ≡ is_comment line.now }
{
    match line {
        [first, ..] => *first == b'#',
        [] => false,
    }
}
