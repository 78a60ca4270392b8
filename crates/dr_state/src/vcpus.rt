ghost use Rattle.std.specs.Prelude.{◌≡◌, ◌<◌, ◌^◌, [], ◌∷◌, ℕ, List, IfOk, All, length, get_or};
ghost use Rattle.std.specs.Prelude.{map};
ghost use Rattle.dr_history.specs.declared.event.Event.{Event};
ghost use Rattle.dr_state.specs.Rows.{rows_of, row_of, HasRoom, IsWithin, IsOperation, IsUnseen};
ghost use Rattle.dr_state.specs.Rows.{begins, asked_row, spanned_row};
ghost use Rattle.dr_types.specs.declared.guest.Why.{Why};

use dr_history::Event;
use dr_types::Memory;
use std::alloc::Global;
use std::marker::Model;

/// What is kept of one vCPU. `recent` counts its operations since the last Asked, `asked_opens` the
/// entries that it had opened there, and `span_pushes` the entries that it pushed since the last
/// Start or Synced.
#[derive(Clone, Copy, Debug)]
pub struct Vcpu {
    pub ops: u64,
    pub recent: u64,
    pub opens: u64,
    pub pushes: u64,
    pub resets: u64,
    pub asked_opens: u64,
    pub span_pushes: u64,
    pub in_guest: bool,
    pub kicked: bool,
    pub halted: bool,
}

/// The vCPUs of a guest.
#[derive(Drop)]
pub struct Vcpus {
    rows: Vec<Vcpu>,
}

impl Model for Vcpus {
    ghost use Rattle.std.specs.Prelude.{List};
    ghost use Rattle.dr_state.specs.declared.vcpus.Vcpu.{Vcpu};

    ghost Value = { List Vcpu };

    ghost view = { λ it. it.rows.items };
}

impl Vcpus {
    /// So many vCPUs, before any event.
    #[tactic(auto, using(crate::proofs::Firsts::rows_more, crate::proofs::Firsts::no_rows))]
    pub fn new(alloc: Global, count: usize) -> Result<Vcpus, Memory>
        ensures { IfOk result (λ it. it ≡ rows_of count []) }
    {
        let mut rows = Vec::new(alloc);
        for v in 0..count {
            rows.push(Vcpu {
                ops: 0,
                recent: 0,
                opens: 0,
                pushes: 0,
                resets: 0,
                asked_opens: 0,
                span_pushes: 0,
                in_guest: false,
                kicked: false,
                halted: false,
            })?;
        }
        Ok(Vcpus { rows })
    }

    /// The rows of the vCPUs.
    pub fn as_slice(&self) -> &[Vcpu]
        ensures { result.now ≡ self.now }
    {
        self.rows.as_slice()
    }

    /// What is kept of a vCPU.
    #[tactic(auto, using(crate::proofs::Turns::reads_row))]
    pub fn row(&self, v: u32) -> Vcpu
        requires { v < length self.now }
        ensures { (n : ℕ) (past : List Event) → self.now ≡ rows_of n past → result ≡ row_of past v }
    {
        self.rows[v as usize]
    }

    /// Takes an event.
    pub fn take(&mut self, e: &Event)
        requires vcpu { IsWithin (length self.old) e.now }
        requires room { All HasRoom self.old }
        ensures { (n : ℕ) (past : List Event) → self.old ≡ rows_of n past
            → self.new ≡ rows_of n (e.now ∷ past) }
    {
        match e {
            Event::Read { v, .. }
            | Event::Write { v, .. }
            | Event::Paint { v, .. }
            | Event::Local { v, .. } => self.executed(*v),
            Event::Halted { v, .. } => self.halted(*v),
            Event::Opened { v, .. } => self.opened(*v),
            Event::Pushed { v, .. } => self.pushed(*v),
            Event::Reset { v, .. } => self.reset(*v),
            Event::Exited { v, .. } => self.exited(*v),
            Event::Asked { .. } => self.asked(),
            Event::Start { .. } | Event::Synced { .. } => self.spanned(),
            _ => self.unseen(),
        }
    }

    #[tactic(auto, using(crate::proofs::Turns::executed))]
    fn executed(&mut self, v: u32)
        requires vcpu { v < length self.old }
        requires room { All HasRoom self.old }
        ensures { (n : ℕ) (past : List Event) (e : Event) → IsOperation v e
            → self.old ≡ rows_of n past → self.new ≡ rows_of n (e ∷ past) }
    {
        let row = &mut self.rows[v as usize];
        row.ops += 1;
        row.recent += 1;
        row.in_guest = true;
    }

    #[tactic(auto, using(crate::proofs::Turns::halted))]
    fn halted(&mut self, v: u32)
        requires vcpu { v < length self.old }
        requires room { All HasRoom self.old }
        ensures { (n i : ℕ) (past : List Event) → self.old ≡ rows_of n past
            → self.new ≡ rows_of n (Event.Halted v i ∷ past) }
    {
        let row = &mut self.rows[v as usize];
        row.ops += 1;
        row.recent += 1;
        row.in_guest = true;
        row.halted = true;
    }

    #[tactic(auto, using(crate::proofs::Turns::opened))]
    fn opened(&mut self, v: u32)
        requires vcpu { v < length self.old }
        requires room { All HasRoom self.old }
        ensures { (n k page : ℕ) (past : List Event) → self.old ≡ rows_of n past
            → self.new ≡ rows_of n (Event.Opened v k page ∷ past) }
    {
        let row = &mut self.rows[v as usize];
        row.opens += 1;
    }

    #[tactic(auto, using(crate::proofs::Turns::pushed))]
    fn pushed(&mut self, v: u32)
        requires vcpu { v < length self.old }
        requires room { All HasRoom self.old }
        ensures { (n k : ℕ) (past : List Event) → self.old ≡ rows_of n past
            → self.new ≡ rows_of n (Event.Pushed v k ∷ past) }
    {
        let row = &mut self.rows[v as usize];
        row.pushes += 1;
        row.span_pushes += 1;
    }

    #[tactic(auto, using(crate::proofs::Turns::reset))]
    fn reset(&mut self, v: u32)
        requires vcpu { v < length self.old }
        requires room { All HasRoom self.old }
        ensures { (n k : ℕ) (past : List Event) → self.old ≡ rows_of n past
            → self.new ≡ rows_of n (Event.Reset v k ∷ past) }
    {
        let row = &mut self.rows[v as usize];
        row.resets += 1;
    }

    #[tactic(auto, using(crate::proofs::Turns::exited))]
    fn exited(&mut self, v: u32)
        requires { v < length self.old }
        ensures { (n : ℕ) (why : Why) (past : List Event) → self.old ≡ rows_of n past
            → self.new ≡ rows_of n (Event.Exited v why ∷ past) }
    {
        let row = &mut self.rows[v as usize];
        row.in_guest = false;
        row.kicked = false;
    }

    #[tactic(auto, using(crate::proofs::Turns::asked))]
    fn asked(&mut self)
        ensures { (n r : ℕ) (past : List Event) → self.old ≡ rows_of n past
            → self.new ≡ rows_of n (Event.Asked r ∷ past) }
    {
        ask_rows(self.rows.as_mut_slice());
    }

    #[tactic(auto, using(crate::proofs::Turns::spanned))]
    fn spanned(&mut self)
        ensures { (n : ℕ) (past : List Event) (e : Event) → begins e → self.old ≡ rows_of n past
            → self.new ≡ rows_of n (e ∷ past) }
    {
        span_rows(self.rows.as_mut_slice());
    }

    #[tactic(auto, using(crate::proofs::Turns::unseen))]
    fn unseen(&mut self)
        ensures { (n : ℕ) (past : List Event) (e : Event) → IsUnseen e → self.old ≡ rows_of n past
            → self.new ≡ rows_of n (e ∷ past) }
    {}
}

#[tactic(auto, using(crate::proofs::Maps::whole, crate::proofs::Maps::ask_step))]
fn ask_rows(rows: &mut [Vcpu])
    ensures { rows.new ≡ map asked_row rows.old }
{
    for row in rows.iter_mut() {
        row.recent = 0;
        row.asked_opens = row.opens;
        row.kicked = row.in_guest;
    }
}

#[tactic(auto, using(crate::proofs::Maps::whole, crate::proofs::Maps::span_step))]
fn span_rows(rows: &mut [Vcpu])
    ensures { rows.new ≡ map spanned_row rows.old }
{
    for row in rows.iter_mut() {
        row.span_pushes = 0;
    }
}
