//! A reader that notes why a read failed.

ghost use Rattle.std.specs.Prelude.{◌≡◌};

use crate::failure::{Cause, ToldCause};
use std::io::{self, Read};

/// Reads standard input. Keeps the error of the last read that failed.
#[derive(Drop)]
pub(crate) struct NotingRead<R> {
    reader: R,
    pub(crate) cause: Option<ToldCause<'static>>,
}

impl<R> NotingRead<R> {
    /// Nothing has failed.
    pub(crate) fn new(reader: R) -> NotingRead<R>
        ensures { result.reader ≡ reader }
    {
        NotingRead {
            reader,
            cause: None,
        }
    }
}

impl<R: Read> Read for NotingRead<R> {
    ghost remaining = { λ noting. R.remaining noting.reader };

    fn read(&mut self, buf: &mut [u8]) -> io::Result<usize> {
        let result = self.reader.read(buf);
        if let Err(error) = &result {
            self.cause = Some(ToldCause {
                cause: Cause::System {
                    name: "standard input",
                    error: *error,
                },
                word: "",
            });
        }
        result
    }
}
