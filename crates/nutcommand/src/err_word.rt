//! The words of refusals (RFC 9271: error responses).
ghost use Rattle.std.specs.Prelude.{◌≡◌, ◌≤◌, length};
ghost use Rattle.nutwords.specs.declared.limits.TheConstants.{LINE_ROOM};

/// Why a line is refused, by the word after `ERR` (RFC 9271: error responses).
#[derive(Clone, Copy)]
pub enum ErrWord {
    /// `ACCESS-DENIED`: the user may not do it.
    AccessDenied,
    /// `UNKNOWN-UPS`: the server has no such UPS.
    UnknownUps,
    /// `VAR-NOT-SUPPORTED`: the UPS has no such variable.
    VarNotSupported,
    /// `CMD-NOT-SUPPORTED`: the UPS has no such command.
    CmdNotSupported,
    /// `INVALID-ARGUMENT`: the line reads as no words, or the command has other words than it may
    /// have.
    InvalidArgument,
    /// `INSTCMD-FAILED`: the command can't be sent to the driver.
    InstcmdFailed,
    /// `SET-FAILED`: the value can't be sent to the driver.
    SetFailed,
    /// `READONLY`: the variable may not be set.
    Readonly,
    /// `TOO-LONG`: the line or the value has more bytes than it may have.
    TooLong,
    /// `FEATURE-NOT-CONFIGURED`: the server doesn't do this.
    FeatureNotConfigured,
    /// `DRIVER-NOT-CONNECTED`: the UPS's driver isn't connected.
    DriverNotConnected,
    /// `DATA-STALE`: what the UPS's driver reported may no longer be right.
    DataStale,
    /// `ALREADY-LOGGED-IN`: the session is logged in to a UPS.
    AlreadyLoggedIn,
    /// `ALREADY-SET-PASSWORD`: the session has a password.
    AlreadySetPassword,
    /// `ALREADY-SET-USERNAME`: the session has a user name.
    AlreadySetUsername,
    /// `USERNAME-REQUIRED`: the session has no user name.
    UsernameRequired,
    /// `PASSWORD-REQUIRED`: the session has no password.
    PasswordRequired,
    /// `UNKNOWN-COMMAND`: the first word is no command.
    UnknownCommand,
    /// `INVALID-VALUE`: the variable may not have this value.
    InvalidValue,
}

/// What a check finds, or the word of its error.
pub type Checked<T> = Result<T, ErrWord>;

impl ErrWord {
    ghost use Rattle.nutcommand.specs.ErrWord.{error_line, spelling_of};

    /// The line of the refusal, with its LF: at most 2,048 bytes.
    pub fn line(self) -> &'static [u8]
        ensures line { result.now ≡ error_line self }
        ensures short { length result.now ≤ LINE_ROOM }
    {
        match self {
            ErrWord::AccessDenied => b"ERR ACCESS-DENIED\n",
            ErrWord::UnknownUps => b"ERR UNKNOWN-UPS\n",
            ErrWord::VarNotSupported => b"ERR VAR-NOT-SUPPORTED\n",
            ErrWord::CmdNotSupported => b"ERR CMD-NOT-SUPPORTED\n",
            ErrWord::InvalidArgument => b"ERR INVALID-ARGUMENT\n",
            ErrWord::InstcmdFailed => b"ERR INSTCMD-FAILED\n",
            ErrWord::SetFailed => b"ERR SET-FAILED\n",
            ErrWord::Readonly => b"ERR READONLY\n",
            ErrWord::TooLong => b"ERR TOO-LONG\n",
            ErrWord::FeatureNotConfigured => b"ERR FEATURE-NOT-CONFIGURED\n",
            ErrWord::DriverNotConnected => b"ERR DRIVER-NOT-CONNECTED\n",
            ErrWord::DataStale => b"ERR DATA-STALE\n",
            ErrWord::AlreadyLoggedIn => b"ERR ALREADY-LOGGED-IN\n",
            ErrWord::AlreadySetPassword => b"ERR ALREADY-SET-PASSWORD\n",
            ErrWord::AlreadySetUsername => b"ERR ALREADY-SET-USERNAME\n",
            ErrWord::UsernameRequired => b"ERR USERNAME-REQUIRED\n",
            ErrWord::PasswordRequired => b"ERR PASSWORD-REQUIRED\n",
            ErrWord::UnknownCommand => b"ERR UNKNOWN-COMMAND\n",
            ErrWord::InvalidValue => b"ERR INVALID-VALUE\n",
        }
    }

    /// The word after `ERR`.
    pub fn spelling(self) -> &'static [u8]
        ensures { result.now ≡ spelling_of self }
    {
        let line = self.line();
        &line[4..line.len() - 1]
    }
}
