//! What a seat's calls lack, and how they are made.

/// How a call is made.
#[derive(Clone, Copy, Debug, PartialEq, Eq, Drop)]
pub enum Manner {
    /// As long as it takes.
    Waits,
    /// In a number of tries.
    Tries,
}

/// What a call has lacked.
#[derive(Clone, Copy, Debug, PartialEq, Eq, Drop)]
pub enum Lack {
    /// Nothing yet.
    Nothing,
    /// A slot.
    Slot,
    /// A slot, while some were to be free for its seat soon: the seat has retired them, and they are free once the epoch has grown.
    SlotSoon,
    /// Tries, until such slots are free.
    Tries,
    /// A generation for a root.
    Generation,
}

/// So many calls in a number of tries may lack a slot, one after the other, before one is told that there is none.
const PATIENCE: u32 = 100_000;

/// How long a call that has found no slot waits, at most.
#[derive(Clone, Copy, Debug, PartialEq, Eq, Drop)]
pub(crate) struct Patience {
    /// So often it begins anew.
    pub tries: u32,
    /// So often its seat looks at the epoch before each of these times.
    pub looks: u32,
}

/// Some hundredths of a second at least, which is longer than a thread mostly has to wait for its processor.
const PATIENT: Patience = Patience {
    tries: 100,
    looks: 4_000,
};

/// One look more.
const IMPATIENT: Patience = Patience { tries: 1, looks: 1 };

/// How a seat's call is made, and what it lacks.
#[derive(Clone, Copy, Debug, PartialEq, Eq, Drop)]
pub(crate) struct Lacks {
    manner: Manner,
    lack: Lack,
    /// How many calls have lacked a slot since one lacked nothing.
    often: u32,
    /// The epoch in which calls have waited for slots in vain.
    in_vain: Option<u64>,
}

impl Lacks {
    pub(crate) fn new() -> Lacks {
        Lacks {
            manner: Manner::Waits,
            lack: Lack::Nothing,
            often: 0,
            in_vain: None,
        }
    }

    /// A call begins in this manner, which has lacked nothing yet.
    #[inline(always)]
    pub(crate) fn begin(&mut self, manner: Manner) {
        if matches!(self.lack, Lack::Nothing) {
            self.often = 0;
        }
        self.manner = manner;
        self.lack = Lack::Nothing;
    }

    /// What the call has lacked.
    #[inline(always)]
    pub(crate) fn lack(&self) -> Lack {
        self.lack
    }

    /// It has found no generation.
    pub(crate) fn wear_out(&mut self) {
        self.lack = Lack::Generation;
    }

    /// It has found no slot. Some may be free for its seat soon, or not.
    pub(crate) fn find_none(&mut self, soon: bool) {
        let is_long = self.often >= PATIENCE;
        self.often = self.often.saturating_add(1);
        self.lack = match self.manner {
            _ if !soon => Lack::Slot,
            Manner::Waits => Lack::SlotSoon,
            Manner::Tries if is_long => Lack::Slot,
            Manner::Tries => Lack::Tries,
        };
    }

    /// How long one that finds no slot in this epoch waits: hardly, where calls have waited in vain.
    pub(crate) fn patience(&self, epoch: u64) -> Patience {
        if self.in_vain == Some(epoch) {
            IMPATIENT
        } else {
            PATIENT
        }
    }

    /// It is over. If it still lacks a slot, calls have waited in vain until the epoch has grown from this one.
    pub(crate) fn stop_waiting(&mut self, epoch: u64) {
        if matches!(self.lack, Lack::SlotSoon) {
            self.in_vain = Some(epoch);
        }
    }
}
