//! A real file is replaced as one step: its bytes go to a new file beside it, which then takes the name.

use crate::outside::WriteError;
use crate::transfer::write_whole;
use std::alloc::Global;
use std::fs::{self, OpenFile, OpenOptions, Permissions};
use std::io::{self, ErrorKind};
use std::rt::Files;

// The longest path that the system takes, in bytes.
const LONGEST_PATH: usize = 4096;

// A new file's name in its folder. Digits tell it from files that are there.
const NEW_NAME: [u8; 10] = *b"ih-00.part";

// Where the digits of a new file's name stand in it, and how many such names are tried.
const TENS: usize = 3;

const ONES: usize = 4;

const MOST_NAMES: u8 = 100;

// The name of a file in a folder: its bytes, and how many of them count.
#[derive(Drop)]
struct Path {
    bytes: [u8; LONGEST_PATH],
    length: usize,
}

impl Path {
    // The name of this number in the folder that a file's name begins with, if it isn't too long.
    fn beside(name: &str, number: u8) -> Option<Path> {
        let folder = match name.rfind('/') {
            Some(last) => &name.as_bytes()[..=last],
            None => b"",
        };
        let start = folder.len();
        let length = start + NEW_NAME.len();
        if length > LONGEST_PATH {
            return None;
        }
        let mut bytes = [0u8; LONGEST_PATH];
        bytes[..start].copy_from_slice(folder);
        bytes[start..length].copy_from_slice(&NEW_NAME);
        bytes[start + TENS] += number / 10;
        bytes[start + ONES] += number % 10;
        Some(Path { bytes, length })
    }

    fn text(&self) -> Option<&str> {
        str::from_utf8(self.bytes.get(..self.length)?).ok()
    }
}

fn fault(_: io::Error) -> WriteError {
    WriteError::Fault
}

// Writes a new file and gives it its permissions, if any are given. The file is closed then.
fn write_part<F: io::Write + OpenFile + Drop>(
    mut file: F,
    permissions: Option<Permissions>,
    bytes: &[u8],
) -> Result<(), WriteError> {
    write_whole(&mut file, bytes)?;
    match permissions {
        Some(permissions) => file.set_permissions(permissions).map_err(fault),
        None => Ok(()),
    }
}

// Gives a name the bytes by way of a new file, which is open and has another name. At an error that one is removed.
fn replace_by<R: Files>(
    rt: &R,
    file: R::File,
    new_name: &str,
    name: &str,
    permissions: Option<Permissions>,
    bytes: &[u8],
) -> Result<(), WriteError> {
    let mut result = write_part(file, permissions, bytes);
    if result.is_ok() {
        result = fs::rename(rt, new_name, name).map_err(fault);
    }
    if result.is_err() {
        let _ = fs::remove_file(rt, new_name);
    }
    result
}

// Gives a name the bytes as one step. At an error it has what it had.
fn replace<R: Files>(
    rt: &R,
    name: &str,
    permissions: Option<Permissions>,
    bytes: &[u8],
) -> Result<(), WriteError> {
    for number in 0..MOST_NAMES {
        let path = Path::beside(name, number).ok_or(WriteError::Fault)?;
        let new_name = path.text().ok_or(WriteError::Fault)?;
        match OpenOptions::new()
            .write(true)
            .create_new(true)
            .open(rt, new_name)
        {
            Ok(file) => return replace_by(rt, file, new_name, name, permissions, bytes),
            Err(error) if error.kind() == ErrorKind::AlreadyExists => {}
            Err(_) => return Err(WriteError::Fault),
        }
    }
    Err(WriteError::Fault)
}

// Whether a name belongs to the system, as `/dev/stdout` does, so that it stands for an open file.
fn is_of_the_system(name: &str) -> bool {
    name.starts_with("/dev/") || name.starts_with("/proc/")
}

fn write_in_place<R: Files>(rt: &R, name: &str, bytes: &[u8]) -> Result<(), WriteError> {
    let mut file = fs::create(rt, name).map_err(fault)?;
    write_whole(&mut file, bytes)
}

// Replaces the regular file that a name leads to. Memory is wanted only where the name is a link; with none at hand the
// file is written in place.
fn replace_target<R: Files>(
    rt: &R,
    memory: Option<Global>,
    name: &str,
    permissions: Permissions,
    bytes: &[u8],
) -> Result<(), WriteError> {
    let found = fs::symlink_metadata(rt, name).map_err(fault)?;
    match memory {
        _ if found.is_file() => replace(rt, name, Some(permissions), bytes),
        Some(alloc) if !is_of_the_system(name) => {
            let target = rt.canonicalize(alloc, name).map_err(fault)?;
            replace(rt, target.as_str(), Some(permissions), bytes)
        }
        _ => write_in_place(rt, name, bytes),
    }
}

/// Gives a name these bytes. A regular file, or none, is replaced as one step: at an error the name has what it had.
/// What isn't a regular file, as a pipe, is written where it is.
pub fn write_file<R: Files>(
    rt: &R,
    memory: Option<Global>,
    name: &str,
    bytes: &[u8],
) -> Result<(), WriteError> {
    match OpenOptions::new().write(true).open(rt, name) {
        Ok(mut file) => {
            let found = file.metadata().map_err(fault)?;
            if found.is_file() {
                replace_target(rt, memory, name, found.permissions(), bytes)
            } else {
                write_whole(&mut file, bytes)
            }
        }
        Err(error) if error.kind() != ErrorKind::NotFound => Err(WriteError::Fault),
        // A link to nowhere: its target is made.
        Err(_) if fs::symlink_metadata(rt, name).is_ok() => write_in_place(rt, name, bytes),
        Err(_) => replace(rt, name, None, bytes),
    }
}
