//! The system that the program runs on.

use sip_udp::Bell;
use std::alloc::Global;
use std::fs::{self, File, Metadata, OpenFile, OpenOptions};
use std::io::{self, Eprint, Input, IsTerminal, Stdout};
use std::net::{SocketAddrV4, UdpSocket};
use std::os::unix::fs::{MetadataExt, OpenOptionsExt};
use std::random::RandomSource;
use std::rt::Files;
use std::string::String;

/// The permissions of a file that this user alone may read: a journal and a record have secrets.
const PRIVATE: u32 = 0o600;

/// Files by their paths, and standard error, where it is said what becomes of a journal. It has no
/// associated types, as `Files` has, which each function that is passed it would be proved for.
pub trait Journals: Eprint + Copy {
    /// Opens the file with this path.
    ///
    /// # Errors
    ///
    /// The system's own error, as of the others.
    fn open_with(&self, options: &OpenOptions, path: &str) -> io::Result<File>;

    /// The metadata of the file with this path.
    fn metadata(&self, path: &str) -> io::Result<Metadata>;

    /// The path without symbolic links.
    fn canonical(&self, alloc: Global, path: &str) -> io::Result<String>;

    /// Gives a file another path.
    fn rename(&self, from: &str, to: &str) -> io::Result<()>;

    /// Removes the file with this path.
    fn remove(&self, path: &str) -> io::Result<()>;
}

impl Journals for HostRuntime {
    fn open_with(&self, options: &OpenOptions, path: &str) -> io::Result<File> {
        options.open(self, path)
    }

    fn metadata(&self, path: &str) -> io::Result<Metadata> {
        fs::metadata(self, path)
    }

    fn canonical(&self, alloc: Global, path: &str) -> io::Result<String> {
        Ok(self.canonicalize(alloc, path)?.into_string())
    }

    fn rename(&self, from: &str, to: &str) -> io::Result<()> {
        fs::rename(self, from, to)
    }

    fn remove(&self, path: &str) -> io::Result<()> {
        fs::remove_file(self, path)
    }
}

/// Sockets, random bytes, files, a pipe of commands, and where notices go.
pub trait Host: RandomSource + Journals + Send + Sync + 'static {
    /// The pipe from which `ua agent` reads its commands.
    fn commands(&self) -> <HostRuntime as Input>::Reader;

    /// Whether the pipe is a terminal.
    fn is_on_terminal(&self) -> bool;

    /// Where `ua listen`, `ua call` and `ua agent` write their notices.
    fn notices(&self) -> Stdout;

    /// A socket at this address.
    ///
    /// # Errors
    ///
    /// The system's own error.
    fn bind(&self, address: SocketAddrV4) -> io::Result<UdpSocket>;

    /// A bell.
    ///
    /// # Errors
    ///
    /// The system has no more sockets.
    fn bell(&self) -> io::Result<Bell>;
}

/// The pipe is standard input, and notices go to standard output.
impl Host for HostRuntime {
    fn commands(&self) -> <HostRuntime as Input>::Reader {
        self.reader()
    }

    fn is_on_terminal(&self) -> bool {
        self.stdin().is_terminal()
    }

    fn notices(&self) -> Stdout {
        self.stdout()
    }

    fn bind(&self, address: SocketAddrV4) -> io::Result<UdpSocket> {
        UdpSocket::bind(self, address)
    }

    fn bell(&self) -> io::Result<Bell> {
        Bell::new(self)
    }
}

/// How a file is opened.
#[derive(Clone, Copy)]
pub(crate) enum Access {
    Read,
    /// A file that isn't there is made.
    Append,
    /// To append to a new file. A link that somebody put there isn't followed.
    AppendNew,
    /// A file that is there is emptied.
    Overwrite,
}

/// Opens the file with this path.
pub(crate) fn open<T: Journals>(rt: &T, path: &str, access: Access) -> io::Result<File> {
    let mut options = OpenOptions::new();
    match access {
        Access::Read => {
            options.read(true);
        }
        Access::Append => {
            options.read(true).append(true).create(true);
        }
        Access::AppendNew => {
            options.read(true).append(true).create_new(true);
        }
        Access::Overwrite => {
            options.write(true).create(true).truncate(true);
        }
    }
    options.mode(PRIVATE);
    rt.open_with(&options, path)
}

/// Whether this process has the file for itself from now on, and the file is the one with this
/// path.
pub(crate) fn has_alone<T: Journals>(rt: &T, file: &File, path: &str) -> bool {
    if file.try_lock().is_err() {
        return false;
    }
    match file.metadata() {
        Ok(own) => is_at(rt, &own, path),
        Err(_) => false,
    }
}

/// Whether the file with this path is the one with these metadata.
pub(crate) fn is_at<T: Journals>(rt: &T, own: &Metadata, path: &str) -> bool {
    match rt.metadata(path) {
        Ok(named) => own.dev() == named.dev() && own.ino() == named.ino(),
        Err(_) => false,
    }
}
