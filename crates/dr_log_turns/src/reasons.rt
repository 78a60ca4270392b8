ghost use Rattle.std.specs.Prelude.{◌≡◌, ◌<◌};
ghost use Rattle.dr_types.specs.Scripts.{vcpu_count};
ghost use Rattle.dr_turns.specs.Turns.{exit_reason};

use dr_log::Log;
use dr_types::Why;

/// Why a vCPU leaves the guest: the first reason that holds.
pub fn exit_reason(log: &Log, v: u32) -> Why
    requires { v < vcpu_count log.now.guest }
    ensures { result ≡ exit_reason log.now.guest v log.now.past }
{
    if log.halted(v) {
        Why::Halted
    } else if log.stopped() {
        Why::Stopped
    } else if log.kicked(v) {
        Why::Kicked
    } else if log.is_full(v) {
        Why::Full
    } else {
        Why::Yield
    }
}
