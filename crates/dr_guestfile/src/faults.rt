ghost use Rattle.std.specs.Prelude.{◌≡◌};
ghost use Rattle.dr_guestfile.specs.FaultLines.{line_of};

use dr_types::FileFault;

/// The line that a fault names.
pub fn named_line(why: FileFault) -> Option<u64>
    ensures { result ≡ line_of why }
{
    match why {
        FileFault::Magic { no }
        | FileFault::Line { no }
        | FileFault::Number { no }
        | FileFault::RingSize { no }
        | FileFault::Reserve { no }
        | FileFault::SlotTwice { no }
        | FileFault::Unmapped { no }
        | FileFault::CrossPage { no }
        | FileFault::TooLarge { no, .. } => Some(no),
        FileFault::Overlap { .. } | FileFault::Memory => None,
    }
}
