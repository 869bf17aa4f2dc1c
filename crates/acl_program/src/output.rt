//! A whole text, written piece by piece.
ghost use Rattle.std.specs.Prelude.{◌≡◌, ◌++◌, Some, map, IfSome, OnOk, OnErr};
ghost use Rattle.std.specs.List.{concat};
ghost use Rattle.acl_ports.specs.Faults.{HasCause};
ghost use Rattle.acl_program.specs.Streams.{IsPrefixWritten};

use acl_ports::{Failed, Sink};

/// Writes a whole text. A put that fails ends it: no later put is tried.
pub(crate) fn write_all<K: Sink>(sink: &mut K, text: &[u8]) -> Result<(), Failed>
    ensures ok { IfSome (K.written sink.old) (λ before.
        OnOk result (K.written sink.new ≡ Some (before ++ text.now))) }
    ensures err { IfSome (K.written sink.old) (λ before.
        OnErr result (IsPrefixWritten before text.now (K.written sink.new))) }
    ensures cause { HasCause (K.faults sink.old) (K.faults sink.new) result }
{
    let mut done = 0;
    while done < text.len() {
        done += sink.put(&text[done..])?;
    }
    Ok(())
}

/// Writes texts one behind the other, as `write_all` writes one.
pub(crate) fn write_parts<K: Sink>(sink: &mut K, parts: &[&str]) -> Result<(), Failed>
    ensures ok { IfSome (K.written sink.old) (λ before. OnOk result
        (K.written sink.new ≡ Some (before ++ concat (map (λ part. part.now) parts.now)))) }
    ensures err { IfSome (K.written sink.old) (λ before. OnErr result
        (IsPrefixWritten before (concat (map (λ part. part.now) parts.now)) (K.written sink.new))) }
    ensures cause { HasCause (K.faults sink.old) (K.faults sink.new) result }
{
    for part in parts {
        write_all(sink, part.as_bytes())?;
    }
    Ok(())
}
