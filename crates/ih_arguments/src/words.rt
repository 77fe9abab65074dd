//! The words of a command line.

ghost use Rattle.std.specs.Prelude.{◌≡◌, ◌⊎◌};
ghost use Rattle.std.specs.Fn.{FnOnceReturnsAt};
ghost use Rattle.std.specs.Process.{exit_status};

use std::alloc::Global;
use std::env;
use std::io::ErrorKind;
use std::process::ExitCode;
use std::rt::Env;

/// Runs a program on the words behind its name, and gives its exit code. A word that is no text names no call, as no
/// words do: the program runs on none. Where there is no memory for the words, the exit code is `out_of_memory`. What
/// the words are no contract tells.
pub fn run_with_words<R: AllocGlobal + Env, F: FnOnce(&[String]) -> u8>(
    rt: &R,
    out_of_memory: u8,
    run: F,
) -> ExitCode
    requires { F.IsAlwaysCallable run }
    ensures { (exit_status result ≡ out_of_memory)
        ⊎ ((words : _) × FnOnceReturnsAt F.FnOnce run words (exit_status result)) }
{
    let alloc: Global = rt.alloc();
    let words = match env::args(rt) {
        Ok(args) => args.skip(1).collect(alloc),
        Err(error) if error.kind() != ErrorKind::OutOfMemory => Ok(Vec::new(alloc)),
        Err(_) => return ExitCode::from(out_of_memory),
    };
    let Ok(words) = words else {
        return ExitCode::from(out_of_memory);
    };
    let words: Vec<String> = words;
    ExitCode::from(run(words.as_slice()))
}
