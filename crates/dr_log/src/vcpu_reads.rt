ghost use Rattle.std.specs.Prelude.{◌≡◌, ◌<◌, ◌≤◌};
ghost use Rattle.std.specs.List.{list_any, list_all};
ghost use Rattle.dr_types.specs.Scripts.{vcpu_count, operation};
ghost use Rattle.dr_history.specs.Entries.{opens, pushes, resets, used, page_of_entry};
ghost use Rattle.dr_history.specs.Execution.{ops, acc};
ghost use Rattle.dr_history.specs.Kinds.{is_op_of, is_asked};
ghost use Rattle.dr_history.specs.Lookback.{count, since, before};
ghost use Rattle.dr_history.specs.Rules.{deposits_entry, deposits_some};
ghost use Rattle.dr_history.specs.Rounds.{is_reset_in};
ghost use Rattle.dr_history.specs.Throttles.{throttle};
ghost use Rattle.dr_history.specs.Vcpus.{in_guest, kicked, halted, is_full, all_paced, some_kicked};
ghost use Rattle.dr_state.specs.Rows.{row_of};

use crate::deposits::{is_deposited, some_deposited};
use crate::log::Log;
use crate::paces::{all_covered, all_paced, all_paced_recently, some_kicked};
use dr_state::Vcpu;
use dr_types::{Op, Throttle};

/// What is told of each vCPU.
impl Log {
    /// How many vCPUs the guest has.
    pub fn vcpus(&self) -> u32
        ensures { result ≡ vcpu_count self.now.guest }
    {
        self.state.protection.permissions.vcpus()
    }

    fn row(&self, v: u32) -> Vcpu
        requires { v < vcpu_count self.now.guest }
        ensures { result ≡ row_of self.now.past v }
    {
        self.state.vcpus.row(v)
    }

    /// The operation that a vCPU executes next.
    pub fn next_op(&self, v: u32) -> Option<Op>
        requires { v < vcpu_count self.now.guest }
        ensures { result ≡ operation self.now.guest v (ops v self.now.past) }
    {
        self.state.running.op(v)
    }

    /// A vCPU's register.
    pub fn register(&self, v: u32) -> u64
        requires { v < vcpu_count self.now.guest }
        ensures { result ≡ acc self.now.guest v self.now.past }
    {
        self.state.running.register(v)
    }

    /// How many operations a vCPU has executed.
    pub fn ops(&self, v: u32) -> u64
        requires { v < vcpu_count self.now.guest }
        ensures { result ≡ ops v self.now.past }
    {
        self.row(v).ops
    }

    /// How many operations a vCPU has executed since the last Asked.
    pub fn recent_ops(&self, v: u32) -> u64
        requires { v < vcpu_count self.now.guest }
        ensures { result ≡ count (is_op_of v) (since is_asked self.now.past) }
    {
        self.row(v).recent
    }

    /// A vCPU is in the guest.
    pub fn in_guest(&self, v: u32) -> bool
        requires { v < vcpu_count self.now.guest }
        ensures { result ≡ in_guest v self.now.past }
    {
        self.row(v).in_guest
    }

    /// A vCPU was in the guest at the last Asked, and hasn't left it since.
    pub fn kicked(&self, v: u32) -> bool
        requires { v < vcpu_count self.now.guest }
        ensures { result ≡ kicked v self.now.past }
    {
        self.row(v).kicked
    }

    /// A vCPU has halted.
    pub fn halted(&self, v: u32) -> bool
        requires { v < vcpu_count self.now.guest }
        ensures { result ≡ halted v self.now.past }
    {
        self.row(v).halted
    }

    /// How many entries a vCPU has opened.
    pub fn opens(&self, v: u32) -> u64
        requires { v < vcpu_count self.now.guest }
        ensures { result ≡ opens v self.now.past }
    {
        self.row(v).opens
    }

    /// How many entries a vCPU had opened when the last round was asked.
    pub fn asked_opens(&self, v: u32) -> u64
        requires { v < vcpu_count self.now.guest }
        ensures { result ≡ opens v (before is_asked self.now.past) }
    {
        self.row(v).asked_opens
    }

    /// How many entries a vCPU has pushed.
    pub fn pushes(&self, v: u32) -> u64
        requires { v < vcpu_count self.now.guest }
        ensures { result ≡ pushes v self.now.past }
    {
        self.row(v).pushes
    }

    /// How many entries of a vCPU are reset.
    pub fn resets(&self, v: u32) -> u64
        requires { v < vcpu_count self.now.guest }
        ensures { result ≡ resets v self.now.past }
    {
        self.row(v).resets
    }

    /// How many places of a vCPU's ring are in use.
    pub fn used(&self, v: u32) -> u64
        requires { v < vcpu_count self.now.guest }
        ensures { result ≡ used v self.now.past }
    {
        let row = self.row(v);
        row.pushes.saturating_sub(row.resets)
    }

    /// A vCPU's ring is soft full.
    pub fn is_full(&self, v: u32) -> bool
        requires { v < vcpu_count self.now.guest }
        ensures { result ≡ is_full self.now.guest v self.now.past }
    {
        u64::from(self.guest.settings.soft_limit()) <= self.used(v)
    }

    /// The page of an entry that a vCPU opened; `None` where it opened none of this number.
    pub fn entry_page(&self, v: u32, k: u64) -> Option<u32>
        requires { v < vcpu_count self.now.guest }
        ensures { result ≡ page_of_entry v k self.now.past }
    {
        self.state.entries.page(v, k)
    }

    /// An entry of a vCPU is deposited.
    pub fn deposited(&self, v: u32, k: u64) -> bool
        requires { v < vcpu_count self.now.guest }
        ensures { result ≡ list_any (deposits_entry v k) self.now.past }
    {
        is_deposited(&self.guest, &self.state, v, k)
    }

    /// Some entry of a vCPU from one number up to another is deposited.
    pub fn some_deposited(&self, v: u32, from: u64, to: u64) -> bool
        requires vcpu { v < vcpu_count self.now.guest }
        requires order { from < to }
        ensures { result ≡ list_any (deposits_some v from to) self.now.past }
    {
        some_deposited(&self.guest, &self.state, v, from, to)
    }

    /// Each vCPU has executed enough, or has halted.
    pub fn all_paced(&self) -> bool
        ensures { result ≡ all_paced self.now.guest self.now.past self.now.past }
    {
        all_paced(&self.guest, &self.state)
    }

    /// Each vCPU has executed enough since the last Asked, or has halted.
    pub fn all_paced_recently(&self) -> bool
        ensures { let past = self.now.past in
            result ≡ all_paced self.now.guest (since is_asked past) past }
    {
        all_paced_recently(&self.guest, &self.state)
    }

    /// Some vCPU was in the guest at the last Asked, and hasn't left it since.
    pub fn some_kicked(&self) -> bool
        ensures { result ≡ some_kicked self.now.guest self.now.past }
    {
        some_kicked(&self.guest, &self.state)
    }

    /// Each entry that was opened before the last Asked is reset.
    pub fn all_covered(&self) -> bool
        ensures { let past = self.now.past in
            result ≡ list_all (is_reset_in past) (before is_asked past) }
    {
        all_covered(&self.guest, &self.state)
    }

    /// A vCPU's throttle over all answers so far, where there is a quota.
    pub fn throttle(&self, v: u32) -> Throttle
        requires vcpu { v < vcpu_count self.now.guest }
        requires quota { 1 ≤ self.now.guest.settings.quota }
        ensures { result ≡ throttle self.now.guest v self.now.past }
    {
        self.state.throttles.of(v)
    }
}
