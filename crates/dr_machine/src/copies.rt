ghost use Rattle.std.specs.Prelude.{◌≡◌};
ghost use Rattle.dr_machine.specs.Copies.{CopiesWithin, copied_into};

use dr_log::Log;
use dr_memory::PageBytes;
use dr_turns::Advance;

/// Takes the bytes of the page that an advance of this answer copied, where it copied one.
pub fn read_copied(log: &Log, due: Advance, into: &mut PageBytes)
    requires { CopiesWithin log.now.guest due }
    ensures { into.new ≡ copied_into log.now.guest log.now.past due into.old }
{
    match due {
        Advance::Copied { r: _, page } => log.copy_page(page, into),
        _ => {}
    }
}
