//! Examples of each shelf, sink and gate.

use ih_shelf::{
    FileShelf, Gate, HoldGate, MemShelf, MemSink, NeverFails, OpenGate, OutSink, ReadError, Shelf,
    Sink, WriteError,
};
use std::alloc::Global;
use std::fs;
use std::rt::Files;
use std::sync::Wait;

// Whether just these bytes are read under a name.
fn reads<R: Files, S: Shelf>(
    rt: &R,
    alloc: Global,
    shelf: &mut S,
    name: &str,
    limit: u64,
    wanted: &[u8],
) -> bool {
    match shelf.read(rt, alloc, name, limit) {
        Ok(bytes) => bytes.as_slice() == wanted,
        Err(_) => false,
    }
}

fn is_too_long<R: Files, S: Shelf>(
    rt: &R,
    alloc: Global,
    shelf: &mut S,
    name: &str,
    limit: u64,
) -> bool {
    matches!(shelf.read(rt, alloc, name, limit), Err(ReadError::TooLong))
}

fn faults<R: Files, S: Shelf>(rt: &R, alloc: Global, shelf: &mut S, name: &str) -> bool {
    matches!(shelf.read(rt, alloc, name, 4), Err(ReadError::Fault))
}

// Whether what is written under a name is read again.
fn comes_back<R: Files, S: Shelf>(rt: &R, alloc: Global, shelf: &mut S, name: &str) -> bool {
    shelf.write(rt, name, b"old bytes").is_ok()
        && shelf.write(rt, name, b"bytes").is_ok()
        && reads(rt, alloc, shelf, name, 5, b"bytes")
}

// Whether a shelf with four bytes under one name gives these, and faults where there are none.
fn gives_four<R: Files>(rt: &R, alloc: Global, shelf: &mut MemShelf) -> bool {
    is_too_long(rt, alloc, shelf, "a", 3)
        && reads(rt, alloc, shelf, "a", 4, b"abcd")
        && shelf.faults() == 0
        && faults(rt, alloc, shelf, "b")
        && shelf.faults() == 1
}

// Whether it then takes bytes under another name, and a planned fault cuts off the next ones.
fn takes_two<R: Files>(rt: &R, shelf: &mut MemShelf) -> bool {
    shelf.write(rt, "c", b"xy").is_ok()
        && shelf.get("c") == Some(b"xy".as_slice())
        && shelf.fail_write(2, 1).is_ok()
        && shelf.write(rt, "c", b"pq") == Err(WriteError::Fault)
        && shelf.get("c") == Some(b"p".as_slice())
        && shelf.get("a") == Some(b"abcd".as_slice())
        && shelf.faults() == 2
}

fn gives_and_takes<R: Files>(rt: &R, alloc: Global) -> bool {
    let mut shelf = MemShelf::new(alloc);
    shelf.store("a", b"abcd").is_ok()
        && gives_four(rt, alloc, &mut shelf)
        && takes_two(rt, &mut shelf)
}

#[test]
fn memory_shelf(rt: HostRuntime) {
    assert!(rt; gives_and_takes(&rt, rt.alloc()));
}

// Whether a shelf that never fails has four bytes under one name, and nothing under any other.
fn has_four<R: Files>(rt: &R, alloc: Global, shelf: &mut NeverFails) -> bool {
    shelf.get("a") == Some(b"abcd".as_slice())
        && shelf.get("b").is_none()
        && reads(rt, alloc, shelf, "b", 0, b"")
        && is_too_long(rt, alloc, shelf, "a", 3)
        && comes_back(rt, alloc, shelf, "a")
}

fn never_fails<R: Files>(rt: &R, alloc: Global) -> bool {
    let mut shelf = NeverFails::new(alloc);
    shelf.store("a", b"abcd").is_ok() && has_four(rt, alloc, &mut shelf)
}

#[test]
fn shelf_that_never_fails(rt: HostRuntime) {
    assert!(rt; never_fails(&rt, rt.alloc()));
}

// Whether bytes come back where as many are allowed, and are too long where one less is.
fn is_whole<R: Files, S: Shelf>(
    rt: &R,
    alloc: Global,
    shelf: &mut S,
    name: &str,
    bytes: &[u8],
) -> bool {
    let limit = bytes.len() as u64;
    shelf.write(rt, name, bytes).is_ok()
        && reads(rt, alloc, shelf, name, limit, bytes)
        && is_too_long(rt, alloc, shelf, name, limit.saturating_sub(1))
}

// Whether over a million bytes, read in many pieces, come back where as many are allowed, and are too long where one
// less is.
fn is_long<R: Files, S: Shelf>(rt: &R, alloc: Global, shelf: &mut S, name: &str) -> bool {
    match vec![in alloc; 7u8; 1_100_000] {
        Ok(bytes) => is_whole(rt, alloc, shelf, name, bytes.as_slice()),
        Err(_) => false,
    }
}

// Whether a write faults: where there is no such folder, on a device that is full, and on a folder.
fn writes_fault<R: Files>(rt: &R, shelf: &mut FileShelf) -> bool {
    shelf.write(rt, "no such folder/file", b"x") == Err(WriteError::Fault)
        && shelf.write(rt, "/dev/full", b"x") == Err(WriteError::Fault)
        && shelf.write(rt, ".", b"x") == Err(WriteError::Fault)
}

// Whether a file is read as it was written, and faults once it is gone.
fn keeps_a_file<R: Files>(rt: &R, alloc: Global, shelf: &mut FileShelf, name: &str) -> bool {
    comes_back(rt, alloc, shelf, name)
        && is_too_long(rt, alloc, shelf, name, 4)
        && is_long(rt, alloc, shelf, name)
        && fs::remove_file(rt, name).is_ok()
        && faults(rt, alloc, shelf, name)
        && faults(rt, alloc, shelf, ".")
}

#[test]
fn real_files(rt: HostRuntime) {
    let mut shelf = FileShelf::new();
    assert!(rt; keeps_a_file(&rt, rt.alloc(), &mut shelf, "ih_shelf_test_file"));
    assert!(rt; writes_fault(&rt, &mut shelf));
}

// Whether a planned fault leaves the bytes that were put before.
fn keeps_bytes<R: Print>(rt: &R, sink: &mut MemSink) -> bool {
    sink.put(rt, b"xy").is_ok()
        && sink.bytes() == b"xy".as_slice()
        && sink.fail_put(2).is_ok()
        && sink.put(rt, b"pq") == Err(WriteError::Fault)
        && sink.bytes() == b"xy".as_slice()
        && sink.put(rt, b"z").is_ok()
        && sink.bytes() == b"xyz".as_slice()
}

#[test]
fn sinks(rt: HostRuntime) {
    let mut sink = MemSink::new(rt.alloc());
    assert!(rt; keeps_bytes(&rt, &mut sink));
    assert!(rt; OutSink::new().put(&rt, b"to standard output\n").is_ok());
}

fn pass<R: Wait, G: Gate>(rt: &R, gate: &G) {
    gate.before(rt, 0, 1);
    gate.after(rt, 0, 1);
}

// Workers come to the gate, each with the number of its try.
fn come<R: Wait>(rt: &R, gate: &HoldGate, rows: &[(u32, u32)]) {
    for (worker, number) in rows {
        gate.before(rt, *worker, *number);
    }
}

// Whether a gate that holds worker 0 at number 2 lets it on once the other worker came, and holds it until then.
fn holds_until_the_other_came<R: Wait>(rt: &R) -> bool {
    let gate = HoldGate::new(10, 2);
    gate.after(rt, 1, 0);
    come(rt, &gate, &[(0, 0), (1, 0)]);
    let first = gate.ran_out();
    come(rt, &gate, &[(0, 2), (1, 1), (2, 1)]);
    let second = gate.ran_out();
    come(rt, &gate, &[(0, 1)]);
    let third = gate.ran_out();
    gate.after(rt, 1, 1);
    come(rt, &gate, &[(0, 1)]);
    !first && !second && third && gate.ran_out()
}

fn holds_each_number_for_itself<R: Wait>(rt: &R) -> bool {
    let gate = HoldGate::new(10, 3);
    gate.after(rt, 1, 1);
    come(rt, &gate, &[(0, 1), (1, 1)]);
    let first = gate.ran_out();
    come(rt, &gate, &[(1, 2)]);
    !first && gate.ran_out()
}

#[test]
fn gates(rt: HostRuntime) {
    pass(&rt, &OpenGate);
    assert!(rt; holds_until_the_other_came(&rt));
    assert!(rt; holds_each_number_for_itself(&rt));
}
