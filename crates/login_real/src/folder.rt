// The folder in which sockets stand.

use libc::geteuid;
use mio::net::{UnixListener, UnixStream};
use std::fs::{DirBuilder, File, Files, Metadata, Permissions};
use std::io::ErrorKind;
use std::net::Net;
use std::os::unix::fs::{DirBuilderExt, FileTypeExt, MetadataExt, PermissionsExt, lchown};
use std::{fs, io};

/// The mode of a folder that only its owner enters, and that of one that everybody may pass through.
const PRIVATE_FOLDER: u32 = 0o700;

const PASSABLE_FOLDER: u32 = 0o711;

/// The bit in the mode of a folder in which many keep files, each of which only its owner removes.
const SHARED_FOLDER: u32 = 0o1000;

/// The mode of a socket that only its owner connects to.
const PRIVATE_SOCKET: u32 = 0o600;

/// The number of the superuser.
const ROOT: u32 = 0;

/// Whether the program is run by the superuser, who alone can give sockets to others.
fn is_root() -> bool {
    geteuid() == ROOT
}

/// A folder that is the program's own, which nobody else enters until it is opened to all. It is locked, so that no
/// other run takes it over while this one lasts.
#[derive(Drop)]
pub(crate) struct Folder {
    file: File,
    /// Whether it was made here.
    is_new: bool,
}

/// Whether a folder was made, or was there.
fn make<R: Files>(rt: &R, path: &str) -> io::Result<bool> {
    match DirBuilder::new().mode(PRIVATE_FOLDER).create(rt, path) {
        Ok(()) => Ok(true),
        Err(fault) if fault.kind() == ErrorKind::AlreadyExists => Ok(false),
        Err(fault) => Err(fault),
    }
}

/// Whether a folder is the program's own: of its user, and none that many share, such as `/tmp`.
fn is_own(folder: &Metadata) -> bool {
    folder.is_dir() && folder.uid() == geteuid() && folder.mode() & SHARED_FOLDER == 0
}

/// The folder at this place, locked and entered by nobody else, where it is the program's own and no other run has it.
/// What a symbolic link leads to is not at this place.
fn take_over<R: Files<File = File>>(rt: &R, path: &str) -> io::Result<File> {
    let place = fs::symlink_metadata(rt, path)?;
    let file = File::open(rt, path)?;
    let found = file.metadata()?;
    let is_same = (found.dev(), found.ino()) == (place.dev(), place.ino());
    if !is_same || !is_own(&found) {
        return Err(io::Error::from(ErrorKind::PermissionDenied));
    }
    if file.try_lock().is_err() {
        return Err(io::Error::from(ErrorKind::AddrInUse));
    }
    file.set_permissions(Permissions::from_mode(PRIVATE_FOLDER))?;
    Ok(file)
}

impl Folder {
    /// Makes the folder, or takes over one that is there.
    pub(crate) fn take<R: Files<File = File>>(rt: &R, path: &str) -> io::Result<Folder> {
        let is_new = make(rt, path)?;
        match take_over(rt, path) {
            Ok(file) => Ok(Folder { file, is_new }),
            Err(fault) => {
                if is_new {
                    let _ = fs::remove_dir(rt, path);
                }
                Err(fault)
            }
        }
    }

    /// Lets everybody pass through it, where its sockets are of several users: of root's folder alone.
    pub(crate) fn open_to_all(&self) -> io::Result<()> {
        if is_root() {
            self.file
                .set_permissions(Permissions::from_mode(PASSABLE_FOLDER))
        } else {
            Ok(())
        }
    }

    /// Removes it, where it was made here.
    pub(crate) fn remove<R: Files>(self, rt: &R, path: &str) {
        let Folder { file, is_new } = self;
        if is_new {
            let _ = fs::remove_dir(rt, path);
        }
        drop(file);
    }
}

/// Whether nobody serves the socket at this place.
fn is_left_behind<N: Net>(net: &N, path: &str) -> bool {
    matches!(UnixStream::connect(net, path), Err(fault) if fault.kind() == ErrorKind::ConnectionRefused)
}

/// Removes a socket that an earlier run left at this place. Anything else there is a fault.
fn clear_place<R: Files + Net>(rt: &R, path: &str) -> io::Result<()> {
    match fs::symlink_metadata(rt, path) {
        Ok(found) if found.file_type().is_socket() && is_left_behind(rt, path) => {
            fs::remove_file(rt, path)
        }
        Ok(_) => Err(io::Error::from(ErrorKind::AddrInUse)),
        Err(fault) if fault.kind() == ErrorKind::NotFound => Ok(()),
        Err(fault) => Err(fault),
    }
}

/// Gives a socket its mode and, where root runs the program, its user.
fn give_to<R: Files>(rt: &R, path: &str, uid: u32) -> io::Result<()> {
    fs::set_permissions(rt, path, Permissions::from_mode(PRIVATE_SOCKET))?;
    if is_root() {
        lchown(rt, path, Some(uid), None)?;
    }
    Ok(())
}

/// A socket at this place, for this user. The place is in a folder that nobody else enters yet.
pub(crate) fn listen<R: Files + Net>(rt: &R, path: &str, uid: u32) -> io::Result<UnixListener> {
    clear_place(rt, path)?;
    let socket = UnixListener::bind(rt, path)?;
    match give_to(rt, path, uid) {
        Ok(()) => Ok(socket),
        Err(fault) => {
            let _ = fs::remove_file(rt, path);
            Err(fault)
        }
    }
}
