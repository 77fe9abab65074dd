//! What the program asks of files, of its output and of a gate.

ghost use Rattle.std.specs.Prelude.{◌≡◌, ◌≤◌, ◌<◌, ℕ, List, Option, IfOk, IfSome, OnOk, OnErr, vec_len, length};
ghost use Rattle.ih_shelf.specs.Outside.{Names, Rose, IfTold, bytes_at, IsWritten, MayBeWritten, IsAppended};
ghost use Rattle.ih_shelf.specs.Outside.{IsOnePut, MayBeAppended};

use std::alloc::Global;
use std::rt::Files;
use std::sync::Wait;
use thiserror::Error;

/// Why a read gave no bytes.
#[derive(Clone, Copy, Debug, PartialEq, Eq, Error)]
pub enum ReadError {
    #[error("the file cannot be read")]
    Fault,
    #[error("the file has more bytes than its limit")]
    TooLong,
    #[error("out of memory")]
    OutOfMemory,
}

/// Why a write or a put did not come through.
#[derive(Clone, Copy, Debug, PartialEq, Eq, Error)]
pub enum WriteError {
    #[error("the bytes cannot be written")]
    Fault,
    #[error("out of memory")]
    OutOfMemory,
}

/// Named files. A shelf may tell what each name has, and then goes on telling it. It always counts
/// its faults, those of reads and those of writes; a count that stands at 2^64 - 1 as a call ends
/// is taken to have risen in that call.
pub trait Shelf {
    ghost names: { Self → Option Names };

    ghost read_faults: { Self → ℕ };

    ghost write_faults: { Self → ℕ };

    /// A read of a name that failed may lead from one state to another. What that means is each
    /// shelf's own, so who is handed any shelf knows it of a name by a read of that name alone.
    ghost read_failed: { Self → List ℕ → Self → Type 0 };

    /// The bytes of a name, of which there may be at most `limit`. A name that isn't there has no
    /// bytes. Where the answer is neither `Fault` nor `OutOfMemory`, it is `TooLong` exactly if
    /// there are more.
    fn read<R: Files>(
        &mut self,
        rt: &R,
        alloc: Global,
        name: &str,
        limit: u64,
    ) -> Result<Vec<u8>, ReadError>
        ensures bytes { IfOk result (λ v. IfSome (names self.old)
            (λ held. v.items ≡ bytes_at held name.now)) }
        ensures limit { IfOk result (λ v. vec_len v ≤ limit) }
        ensures too_long { result ≡ Err ReadError.TooLong → IfSome (names self.old)
            (λ held. limit < length (bytes_at held name.now)) }
        ensures fault { result ≡ Err ReadError.Fault →
            Rose (read_faults self.old) (read_faults self.new) }
        ensures failed { result ≡ Err ReadError.Fault → read_failed self.old name.now self.new }
        ensures count { read_faults self.old ≤ read_faults self.new }
        ensures other_count { write_faults self.new ≡ write_faults self.old }
        ensures kept { names self.new ≡ names self.old };

    /// Gives a name these bytes. At an error the name has what it had, or a prefix of the bytes.
    /// Whatever the answer, every other name has what it had.
    fn write<R: Files>(&mut self, rt: &R, name: &str, bytes: &[u8]) -> Result<(), WriteError>
        ensures whole { OnOk result
            (IfTold (IsWritten name.now bytes.now) (names self.old) (names self.new)) }
        ensures part { OnErr result
            (IfTold (MayBeWritten name.now bytes.now) (names self.old) (names self.new)) }
        ensures fault { result ≡ Err WriteError.Fault →
            Rose (write_faults self.old) (write_faults self.new) }
        ensures count { write_faults self.old ≤ write_faults self.new }
        ensures other_count { read_faults self.new ≡ read_faults self.old };
}

/// Where text goes. A sink may tell the text so far, and how many puts it has had, and then goes on
/// telling it. It always counts its faults, as a shelf does, and in the same way its own lacks of
/// memory.
pub trait Sink {
    ghost text: { Self → Option (List ℕ) };

    ghost puts: { Self → Option ℕ };

    ghost faults: { Self → ℕ };

    ghost lacks: { Self → ℕ };

    /// Puts the bytes behind the text. At an error a prefix of them was put there.
    fn put<R: Print>(&mut self, rt: &R, bytes: &[u8]) -> Result<(), WriteError>
        ensures whole { OnOk result (IfTold (IsAppended bytes.now) (text self.old) (text self.new)) }
        ensures part { OnErr result
            (IfTold (MayBeAppended bytes.now) (text self.old) (text self.new)) }
        ensures fault { result ≡ Err WriteError.Fault → Rose (faults self.old) (faults self.new) }
        ensures lack { result ≡ Err WriteError.OutOfMemory → Rose (lacks self.old) (lacks self.new) }
        ensures one { IfTold IsOnePut (puts self.old) (puts self.new) }
        ensures count { faults self.old ≤ faults self.new }
        ensures lack_count { lacks self.old ≤ lacks self.new };
}

/// What each worker passes outside the turn: `before` once it has priced its attempt and before it
/// offers it, `after` once the verdict is known. It may wait, and promises nothing.
pub trait Gate: Sync {
    fn before<R: Wait>(&self, rt: &R, worker: u32, number: u32);

    fn after<R: Wait>(&self, rt: &R, worker: u32, number: u32);
}
