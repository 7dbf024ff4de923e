//! The versions of event files and of session files.

ghost use Rattle.std.specs.Prelude.{◌≡◌};
ghost use Rattle.sip_files.specs.EventFile as spelling;
ghost use Rattle.sip_files.specs.Steps.Lines as lines;
ghost use Rattle.sip_files.specs.Written.{written_version};

/// The version of a file: which lines it may have.
#[derive(Clone, Copy)]
pub enum Version {
    /// An event file: all lines but `cancel`, `abandon` and header lines.
    One,
    /// An event file: all lines but `abandon` and header lines.
    Two,
    /// A session file: all lines.
    SessionOne,
}

/// The kind of a file: which versions it may have.
#[derive(Clone, Copy)]
pub enum FileKind {
    /// An event file.
    Events,
    /// A session file, or an event file.
    Session,
}

impl FileKind {
    /// The version in which files of this kind are written.
    pub(crate) fn written(self) -> Version
        ensures { result ≡ written_version self }
    {
        match self {
            FileKind::Events => Version::Two,
            FileKind::Session => Version::SessionOne,
        }
    }
}

impl Version {
    /// The first line of a file of this version.
    pub(crate) fn line(self) -> &'static [u8]
        ensures { result.now ≡ spelling.version_line self }
    {
        match self {
            Version::One => b"sip-events 1",
            Version::Two => b"sip-events 2",
            Version::SessionOne => b"sip-session 1",
        }
    }

    fn is_of_kind(self, kind: FileKind) -> bool
        ensures { result ≡ spelling.is_of_kind kind self }
    {
        match (kind, self) {
            (FileKind::Events, Version::SessionOne) => false,
            _ => true,
        }
    }
}

/// The version that the first line of a file of this kind names.
pub(crate) fn version_in(kind: FileKind, line: &[u8]) -> Option<Version>
    ensures { result ≡ lines.version_in kind line.now }
{
    let version = read_version(line)?;
    if version.is_of_kind(kind) {
        Some(version)
    } else {
        None
    }
}

fn read_version(line: &[u8]) -> Option<Version>
    ensures { result ≡ lines.version_at line.now }
{
    if line == Version::One.line() {
        return Some(Version::One);
    }
    if line == Version::Two.line() {
        return Some(Version::Two);
    }
    if line == Version::SessionOne.line() {
        return Some(Version::SessionOne);
    }
    None
}
