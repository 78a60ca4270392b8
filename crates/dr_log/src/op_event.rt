ghost use Rattle.std.specs.Prelude.{◌≡◌, ◌<◌, true, is_some};
ghost use Rattle.dr_types.specs.Pages.{page_of_frame};
ghost use Rattle.dr_types.specs.Scripts.{vcpu_count};
ghost use Rattle.dr_types.specs.Validity.{IsValid};
ghost use Rattle.dr_history.specs.Execution.{ops};
ghost use Rattle.dr_history.specs.Lines.{FitsLine};
ghost use Rattle.dr_event_law.specs.Operations.{op_event, page_or_zero, value_at};
ghost use Rattle.dr_script.specs.Fits.{IsOpOrHalt};

use crate::log::Log;
use dr_history::Event;
use dr_slots::page_of_frame;
use dr_types::{Guest, Op};

/// The page of a frame of a space that an op fills.
#[tactic(auto, using(crate::proofs::Limits::few_pages))]
fn filled_page(guest: &Guest, space: u32, gfn: u64) -> u32
    requires valid { IsValid guest.now }
    requires mapped { is_some (page_of_frame guest.now.slots space gfn) ≡ true }
    ensures { result ≡ page_or_zero (page_of_frame guest.now.slots space gfn) }
{
    match page_of_frame(guest, space, gfn) {
        Some(page) => page,
        None => unreachable!(),
    }
}

/// The value that an op loads from an address of a space.
#[tactic(auto, using(crate::proofs::Used::for_value_loaded))]
fn value_loaded(log: &Log, space: u32, addr: u64) -> u64
    requires { IsOpOrHalt log.now.guest.slots (Op.R space addr) }
    ensures { result ≡ value_at log.now.guest log.now.past space addr }
{
    log.loaded(space, addr)
}

/// What a vCPU's next op becomes.
impl Log {
    /// How many ops a vCPU has executed, as the number of its next one.
    #[tactic(auto, using(dr_turns_law::proofs::Starting::few_ops))]
    pub fn next_number(&self, v: u32) -> u32
        requires { v < vcpu_count self.now.guest }
        ensures { result ≡ ops v self.now.past }
    {
        self.recall_legal();
        self.ops(v) as u32
    }

    /// The event of a vCPU's op, as the next that it executes.
    #[tactic(auto, using(crate::proofs::Used::for_op_event))]
    pub fn op_event(&self, v: u32, op: Op) -> Event
        requires vcpu { v < vcpu_count self.now.guest }
        requires fits { IsOpOrHalt self.now.guest.slots op }
        ensures is { result ≡ op_event self.now.guest v self.now.past op }
        ensures fits { FitsLine result }
    {
        self.recall_legal();
        let i = self.next_number(v);
        match op {
            Op::W {
                space,
                addr,
                len,
                value,
            } => Event::Write {
                v,
                i,
                space,
                addr,
                len,
                value,
            },
            Op::F { space, gfn, byte } => Event::Paint {
                v,
                i,
                page: filled_page(self.guest(), space, gfn),
                byte,
            },
            Op::R { space, addr } => Event::Read {
                v,
                i,
                space,
                addr,
                value: value_loaded(self, space, addr),
            },
            Op::S { space, addr } => Event::Write {
                v,
                i,
                space,
                addr,
                len: 8,
                value: self.register(v),
            },
            Op::A { .. } | Op::Nap { .. } => Event::Local { v, i },
            Op::Halt => Event::Halted { v, i },
        }
    }
}
