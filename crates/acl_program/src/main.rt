//! The program `acl`: rehearses a script of account statements and privilege checks, line by line.
#![tactic(auto)]

ghost use Rattle.std.specs.Prelude.{◌≡◌, IfOk, drop, map, option_map, string_bytes};
ghost use Rattle.acl_program.specs.Runs.{script_word};

mod cause;
mod input;
mod output;
mod rehearse;
mod serve;
#[cfg(test)]
mod tests;

use acl_ports::{MemoryDisk, StdSink, StdSource};
use serve::serve;
use std::alloc::{AllocError, Global};
use std::fs::File;
use std::process::ExitCode;
use std::{env, io};

/// Hands `serve` the words after the program's name, the file that `step` names as the script, standard output and the
/// standard error stream, and ends with its status. That it hands on just these is not proved. Nothing is kept yet, so no
/// journal is opened: the disk is an empty one in memory.
fn main(rt: HostRuntime) -> ExitCode {
    let mut out = StdSink::new(Some(rt.stdout()));
    let mut err = StdSink::new(Some(rt.stderr()));
    let alloc = rt.alloc();
    let (Ok(words), Ok(disk)) = (
        words_of(&rt),
        MemoryDisk::new(alloc, Vec::new(alloc), 0, 0, Vec::new(alloc)),
    ) else {
        let _ = cause::tell(&mut err, &cause::Cause::NoMemory);
        return ExitCode::from(cause::status_of(&cause::Cause::NoMemory));
    };
    let script = script_path(&words).and_then(|path| File::open(&rt, path).ok());
    let mut script = StdSource::new(script);
    let served = serve(alloc, &words, &mut script, &mut out, &mut err, disk);
    ExitCode::from(served.status)
}

// The words after the program's name. Where one is not UTF-8 there are none, which is a faulty command line.
fn words_of(rt: &HostRuntime) -> io::Result<Vec<String>> {
    match env::args(rt) {
        Ok(words) => {
            let words = words.collect(rt.alloc())?;
            Ok(all_but_first(rt.alloc(), words)?)
        }
        Err(error) if error.kind() == io::ErrorKind::InvalidData => Ok(Vec::new(rt.alloc())),
        Err(error) => Err(error),
    }
}

// All words but the first, which is the program's name.
fn all_but_first(alloc: Global, words: Vec<String>) -> Result<Vec<String>, AllocError>
    ensures { IfOk result (λ rest. rest.items ≡ drop 1 words.items) }
{
    words.into_iter().skip(1).collect(alloc)
}

// The word that names a script which is read.
fn script_path(words: &[String]) -> Option<&String>
    ensures { option_map (λ path. string_bytes path.now) result ≡ script_word (map string_bytes words.now) }
{
    match words {
        [command, script, ..] if command.as_str() == "step" => Some(script),
        _ => None,
    }
}
