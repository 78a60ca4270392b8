ghost use Rattle.std.specs.Prelude.{◌≡◌, if◌then◌else◌};
ghost use Rattle.dr_shell.specs.Codes.{code_of, code_unwritten};

use dr_types::Status;

/// The exit code of a status.
pub fn exit_code(status: Status) -> u8
    ensures { result ≡ code_of status }
{
    match status {
        Status::Done => 0,
        Status::Words => 1,
        Status::GuestFile(_) | Status::JournalText { .. } => 2,
        Status::Unfinished => 3,
        Status::Outlet => 4,
        Status::Source => 5,
        Status::Memory => 6,
        Status::IllegalJournal { .. } => 7,
        Status::BadStream(_) => 8,
        Status::TooLong => 9,
    }
}

/// The exit code of a status, by whether what waited for the ports after the call could be
/// written.
pub fn last_code(status: Status, is_written: bool) -> u8
    ensures { result ≡ (if is_written then code_of status else code_unwritten status) }
{
    match status {
        Status::Done | Status::Unfinished | Status::Memory if !is_written => {
            exit_code(Status::Outlet)
        }
        _ => exit_code(status),
    }
}
