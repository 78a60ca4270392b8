ghost use Rattle.std.specs.Prelude.{◌≡◌, ◌<◌, ◌≤◌, length, replicate, slice_index, IfOk};
ghost use Rattle.dr_types.specs.Scripts.{vcpu_count};
ghost use Rattle.dr_log_turns.specs.Throttled.{AreTaken, FollowThrottles};

use dr_log::Log;
use dr_turns::Advance;
use dr_types::Memory;
use std::alloc::Global;
use std::marker::Model;

/// How long each vCPU was last throttled, in microseconds. Contracts see the list.
#[derive(Drop)]
pub struct Throttles {
    us: Vec<u64>,
}

impl Model for Throttles {
    ghost use Rattle.std.specs.Prelude.{List, ℕ};
    ghost use Rattle.std.specs.Coded.{coded_list, coded_ℕ};

    ghost Value = { List ℕ };

    ghost coded = { coded_list coded_ℕ };

    ghost view = { λ it. it.us.items };
}

impl Throttles {
    /// Of so many vCPUs, none of which was throttled.
    pub fn new(alloc: Global, vcpus: u32) -> Result<Throttles, Memory>
        ensures { IfOk result (λ it. it ≡ replicate vcpus 0) }
    {
        Ok(Throttles {
            us: vec![in alloc; 0; vcpus as usize]?,
        })
    }

    /// How long a vCPU was last throttled, in microseconds, or 0.
    pub fn of(&self, v: u32) -> u64
        requires { v < length self.now }
        ensures { result ≡ slice_index self.now v }
    {
        self.us[v as usize]
    }

    /// Takes what each vCPU's throttle now is.
    #[tactic(auto, using(crate::proofs::Used::for_take_all))]
    fn take_all(&mut self, log: &Log)
        requires count { length self.old ≡ vcpu_count log.now.guest }
        requires quota { 1 ≤ log.now.guest.settings.quota }
        ensures { AreTaken log.now.guest log.now.past (vcpu_count log.now.guest) self.new }
    {
        for v in 0..log.vcpus() {
            self.us[v as usize] = log.throttle(v).us;
        }
    }

    /// Takes the throttles that an advance made, where it answered a round.
    pub fn follow(&mut self, log: &Log, due: Advance)
        requires { length self.old ≡ vcpu_count log.now.guest }
        ensures { FollowThrottles log.now.guest log.now.past due self.old self.new }
    {
        let throttled = log.guest().settings.quota >= 1 && !log.stopped();
        match due {
            Advance::Answered { r: _, pages: _ } if throttled => self.take_all(log),
            _ => {}
        }
    }
}
