// Why the server doesn't start.

ghost use Rattle.std.specs.Prelude.{◌≡◌};
ghost use Rattle.scittd.specs.Status.{status_of};

use thiserror::Error;

/// Why the server doesn't start; printed, it is the line that the program ends with.
#[derive(Clone, Copy, PartialEq, Eq, Debug, Error)]
pub enum StartFault {
    /// The words aren't five, or the last isn't a number from 1 to 8.
    #[error("scittd: words refused")]
    WordsRefused,
    /// The seed file can't be read, or hasn't 48 bytes.
    #[error("scittd: seed refused")]
    SeedRefused,
    /// The log can't be loaded, or can't be created on its file.
    #[error("scittd: log refused")]
    LogRefused,
    /// The parameter file can't be read, is no parameter file, or breaks a limit of logs.
    #[error("scittd: params refused")]
    ParamsRefused,
    /// The address can't be listened at.
    #[error("scittd: address refused")]
    AddressRefused,
    /// Memory was wanting.
    #[error("scittd: no memory")]
    NoMemory,
}

impl StartFault {
    /// The exit status: 2 for refused words, else 1.
    pub fn status(self) -> u8
        ensures { result ≡ status_of self }
    {
        match self {
            StartFault::WordsRefused => 2,
            _ => 1,
        }
    }
}
