ghost use Rattle.std.specs.Prelude.{◌≡◌, drop, slice_get};
ghost use Rattle.dr_types.specs.Scripts.{expanded};
ghost use Rattle.dr_script.specs.Places.{AllRun};

use dr_types::{Item, Op, Script};
use std::marker::Model;

/// A script and a place in it. Contracts see the operations from there on, with each repetition
/// written out.
#[derive(Drop)]
pub struct Reader {
    script: Script,
    item: usize,
    done: u32,
    place: usize,
}

impl Model for Reader {
    ghost use Rattle.std.specs.Prelude.{List};
    ghost use Rattle.std.specs.Coded.{coded_list};
    ghost use Rattle.dr_types.specs.declared.guest.Op.{Op};
    ghost use Rattle.dr_script.specs.Places.{rest, IsPlace};

    ghost Value = { List Op };

    ghost view = { λ r. rest r.script r.item r.done r.place };

    ghost invariant = { λ r. IsPlace r.script r.item r.done r.place };
}

impl Reader {
    /// A reader at the front of a script.
    #[tactic(auto, using(crate::proofs::Reading::begins))]
    pub fn new(script: Script) -> Reader
        requires { AllRun script }
        ensures { result ≡ expanded script }
    {
        Reader {
            script,
            item: 0,
            done: 0,
            place: 0,
        }
    }

    /// The next operation; `None` at the end.
    #[tactic(auto, using(crate::proofs::Reading::reads))]
    pub fn next(&self) -> Option<Op>
        ensures { result ≡ slice_get self.now 0 }
    {
        let items = self.script.as_slice();
        if self.item < items.len() {
            match &items[self.item] {
                Item::One(op) => Some(*op),
                Item::Rep { body, .. } => Some(body.as_slice()[self.place]),
            }
        } else {
            None
        }
    }

    /// Goes after the next operation; at the end it stays there.
    #[tactic(auto, using(crate::proofs::Reading::turns))]
    pub fn advance(&mut self)
        ensures { self.new ≡ drop 1 self.old }
    {
        let items = self.script.as_slice();
        if self.item < items.len() {
            match &items[self.item] {
                Item::One(_) => self.item += 1,
                Item::Rep { n, body } => {
                    let len = body.len();
                    let times = *n;
                    if self.place + 1 < len {
                        self.place += 1;
                    } else if self.done + 1 < times {
                        self.place = 0;
                        self.done += 1;
                    } else {
                        self.place = 0;
                        self.done = 0;
                        self.item += 1;
                    }
                }
            }
        }
    }
}
