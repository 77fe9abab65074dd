//! Real files are replaced as one step: whatever fails, the older bytes stay whole.

use ih_shelf::{FileShelf, Shelf, WriteError};
use std::alloc::Global;
use std::fs::{self, Permissions};
use std::os::unix::fs::PermissionsExt;
use std::rt::Files;

// Whether a file has just these bytes.
fn has<R: Files>(rt: &R, alloc: Global, shelf: &mut FileShelf, name: &str, wanted: &[u8]) -> bool {
    match shelf.read(rt, alloc, name, 100) {
        Ok(bytes) => bytes.as_slice() == wanted,
        Err(_) => false,
    }
}

fn is_absent<R: Files>(rt: &R, name: &str) -> bool {
    fs::symlink_metadata(rt, name).is_err()
}

fn is_link<R: Files>(rt: &R, name: &str) -> bool {
    match fs::symlink_metadata(rt, name) {
        Ok(found) => found.is_symlink(),
        Err(_) => false,
    }
}

// Whether who may use a file is told by these bits.
fn has_mode<R: Files>(rt: &R, name: &str, mode: u32) -> bool {
    match fs::metadata(rt, name) {
        Ok(found) => found.permissions().mode() % 512 == mode,
        Err(_) => false,
    }
}

// Whether the file that a link leads to is replaced, and the link stays.
fn follows_links<R: Files>(rt: &R, alloc: Global, shelf: &mut FileShelf) -> bool {
    shelf.write(rt, "aim", b"old").is_ok()
        && rt.symlink("aim", "link").is_ok()
        && has(rt, alloc, shelf, "link", b"old")
        && shelf.write(rt, "link", b"new").is_ok()
        && is_link(rt, "link")
        && has(rt, alloc, shelf, "aim", b"new")
}

// Whether a file that has the name of a new one stays as it is.
fn leaves_others<R: Files>(rt: &R, alloc: Global, shelf: &mut FileShelf) -> bool {
    shelf.write(rt, "ih-00.part", b"another's").is_ok()
        && shelf.write(rt, "plan", b"older").is_ok()
        && shelf.write(rt, "plan", b"newer").is_ok()
        && has(rt, alloc, shelf, "plan", b"newer")
        && has(rt, alloc, shelf, "ih-00.part", b"another's")
        && is_absent(rt, "ih-01.part")
}

// Whether who may use a file stays as it was.
fn keeps_permissions<R: Files>(rt: &R, shelf: &mut FileShelf) -> bool {
    fs::set_permissions(rt, "plan", Permissions::from_mode(0o640)).is_ok()
        && shelf.write(rt, "plan", b"newest").is_ok()
        && has_mode(rt, "plan", 0o640)
}

// Whether a file is whole where its folder takes no new files. (Who may do all puts the new bytes there.)
fn is_whole_in_a_shut_folder<R: Files>(rt: &R, alloc: Global, shelf: &mut FileShelf) -> bool {
    let is_made = fs::create_dir(rt, "shut").is_ok()
        && shelf.write(rt, "shut/plan", b"old").is_ok()
        && fs::set_permissions(rt, "shut", Permissions::from_mode(0o555)).is_ok();
    is_made
        && match shelf.write(rt, "shut/plan", b"new") {
            Ok(()) => has(rt, alloc, shelf, "shut/plan", b"new"),
            Err(error) => {
                error == WriteError::Fault && has(rt, alloc, shelf, "shut/plan", b"old")
            }
        }
}

fn replaces<R: Files>(rt: &R, alloc: Global, shelf: &mut FileShelf) -> bool {
    leaves_others(rt, alloc, shelf)
        && follows_links(rt, alloc, shelf)
        && keeps_permissions(rt, shelf)
        && is_whole_in_a_shut_folder(rt, alloc, shelf)
}

#[test]
fn files_are_replaced(rt: HostRuntime) {
    assert!(rt; replaces(&rt, rt.alloc(), &mut FileShelf::new()));
}
