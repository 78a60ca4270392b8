//! What is said at each end of the program, with its exit code. Where standard error is closed, the
//! exit code alone says it.

ghost use Rattle.std.specs.Prelude.{◌≡◌, ◌⊎◌, if◌then◌else◌, is_some};
ghost use Rattle.dr_shell.specs.Codes.{code_of, code_unwritten};

use crate::refusal::{Refusal, print_no_memory, print_refusal, print_unheld, print_usage};
use dr_shell::{exit_code, last_code};
use dr_types::Status;
use std::io;
use std::io::ErrorKind;

/// Says why a command was not done, where it wasn't, and answers the exit code.
pub fn explain_end(rt: &(impl Eprint + AllocGlobal), refusal: &Refusal<'_>) -> u8
    ensures { result ≡ (if is_some refusal.now.unwritten then code_unwritten refusal.now.status
        else code_of refusal.now.status) }
{
    print_refusal(rt, refusal).unwrap_or(());
    last_code(refusal.status, refusal.unwritten.is_none())
}

/// What is said where the words can't be had: one is no text, or memory ran out.
pub fn refuse_words(rt: &impl Eprint, why: io::Error) -> u8
    ensures { (result ≡ code_of Status.Words) ⊎ (result ≡ code_of Status.Memory) }
{
    if why.kind() == ErrorKind::InvalidData {
        print_usage(rt).unwrap_or(());
        exit_code(Status::Words)
    } else {
        refuse_memory(rt)
    }
}

/// What is said where memory runs out before the command begins.
pub fn refuse_memory(rt: &impl Eprint) -> u8
    ensures { result ≡ code_of Status.Memory }
{
    print_no_memory(rt).unwrap_or(());
    exit_code(Status::Memory)
}

/// What is said where standard input and output can't be held.
pub fn refuse_unheld(rt: &impl Eprint, why: io::Error) -> u8
    ensures { result ≡ code_of Status.Outlet }
{
    print_unheld(rt, why).unwrap_or(());
    exit_code(Status::Outlet)
}
