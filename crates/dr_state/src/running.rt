ghost use Rattle.std.specs.Prelude.{◌≡◌, ◌<◌, [], ◌∷◌, ℕ, List, All, IfOk, length, slice_index};
ghost use Rattle.std.specs.Prelude.{vec_len, Option};
ghost use Rattle.dr_types.specs.declared.guest.Guest.{Guest};
ghost use Rattle.dr_types.specs.Scripts.{operation, next_acc};
ghost use Rattle.dr_history.specs.declared.event.Event.{Event};
ghost use Rattle.dr_history.specs.Execution.{ops, acc};
ghost use Rattle.dr_state.specs.Scripts.{IsRunning, IsOpLoading, IsNoOp};
ghost use Rattle.dr_state.specs.Rows.{IsWithin};
ghost use Rattle.dr_script.specs.Places.{AllRun};

use crate::script_fields::Running;
use dr_history::Event;
use dr_script::{Reader, next_acc as acc_after};
use dr_types::{Guest, Memory, Op};
use std::alloc::Global;

/// A vCPU's register after an operation that loads this.
fn next_acc(register: u64, op: Option<Op>, loaded: u64) -> u64
    ensures { result ≡ next_acc register op loaded }
{
    match op {
        Some(op) => acc_after(register, op, loaded),
        None => register,
    }
}

impl Running {
    /// The scripts of a guest, each at its front.
    pub fn new(alloc: Global, guest: &Guest) -> Result<Running, Memory>
        requires { All AllRun guest.now.scripts }
        ensures { IfOk result (λ it. IsRunning guest.now [] it) }
    {
        let mut readers = Vec::new(alloc);
        let mut registers = Vec::new(alloc);
        for script in guest.scripts.as_slice() {
            readers.push(Reader::new(script.clone()?))?;
            registers.push(0)?;
        }
        Ok(Running { readers, registers })
    }

    /// The operation that the vCPU executes next.
    pub fn op(&self, v: u32) -> Option<Op>
        requires { v < vec_len self.now.readers }
        ensures { (guest : Guest) (past : List Event) → IsRunning guest past self.now
            → result ≡ operation guest v (ops v past) }
    {
        let reader = &self.readers[v as usize];
        reader.next()
    }

    /// A vCPU's register.
    pub fn register(&self, v: u32) -> u64
        requires { v < vec_len self.now.readers }
        ensures { (guest : Guest) (past : List Event) → IsRunning guest past self.now
            → result ≡ acc guest v past }
    {
        self.registers[v as usize]
    }

    /// Takes an event.
    pub fn take(&mut self, e: &Event)
        requires { IsWithin (vec_len self.old.readers) e.now }
        ensures len { vec_len self.new.readers ≡ vec_len self.old.readers }
        ensures state { (guest : Guest) (past : List Event) → IsRunning guest past self.old
            → IsRunning guest (e.now ∷ past) self.new }
    {
        match e {
            Event::Read { v, value, .. } => self.executed(*v, *value),
            Event::Write { v, .. }
            | Event::Paint { v, .. }
            | Event::Local { v, .. }
            | Event::Halted { v, .. } => self.executed(*v, 0),
            _ => self.unseen(),
        }
    }

    fn executed(&mut self, v: u32, loaded: u64)
        requires { v < vec_len self.old.readers }
        ensures len { vec_len self.new.readers ≡ vec_len self.old.readers }
        ensures state { (guest : Guest) (past : List Event) (e : Event) → IsOpLoading v loaded e
            → IsRunning guest past self.old → IsRunning guest (e ∷ past) self.new }
    {
        let at = v as usize;
        let reader = &mut self.readers[at];
        let op = reader.next();
        reader.advance();
        let register = self.registers[at];
        self.registers[at] = next_acc(register, op, loaded);
    }

    fn unseen(&mut self)
        ensures len { vec_len self.new.readers ≡ vec_len self.old.readers }
        ensures state { (guest : Guest) (past : List Event) (e : Event) → IsNoOp e
            → IsRunning guest past self.old → IsRunning guest (e ∷ past) self.new }
    {}
}
