//! Calls counted by kind.

use history::Call;

/// How many calls there were of each kind.
#[derive(Clone, Copy)]
pub struct Kinds {
    gets: u64,
    puts: u64,
    absent_puts: u64,
    replacements: u64,
    expected_replacements: u64,
    removals: u64,
    expected_removals: u64,
    clears: u64,
    snapshots: u64,
    freezes: u64,
    closes: u64,
}

impl Kinds {
    /// None.
    pub fn new() -> Kinds {
        Kinds {
            gets: 0,
            puts: 0,
            absent_puts: 0,
            replacements: 0,
            expected_replacements: 0,
            removals: 0,
            expected_removals: 0,
            clears: 0,
            snapshots: 0,
            freezes: 0,
            closes: 0,
        }
    }

    /// Counts this one.
    pub fn add(&mut self, call: Call) {
        match call {
            Call::Get { .. } => self.gets = self.gets.saturating_add(1),
            Call::Put { .. } => self.puts = self.puts.saturating_add(1),
            Call::PutIfAbsent { .. } => self.absent_puts = self.absent_puts.saturating_add(1),
            Call::Replace { .. } => self.replacements = self.replacements.saturating_add(1),
            Call::ReplaceIf { .. } => {
                self.expected_replacements = self.expected_replacements.saturating_add(1);
            }
            Call::Remove { .. } => self.removals = self.removals.saturating_add(1),
            Call::RemoveIf { .. } => {
                self.expected_removals = self.expected_removals.saturating_add(1);
            }
            Call::Clear { .. } => self.clears = self.clears.saturating_add(1),
            Call::Snapshot { .. } => self.snapshots = self.snapshots.saturating_add(1),
            Call::Freeze { .. } => self.freezes = self.freezes.saturating_add(1),
            Call::Close { .. } => self.closes = self.closes.saturating_add(1),
            Call::Entries { .. } | Call::Count { .. } => {}
        }
    }

    /// Whether there was one of each.
    pub fn are_all(&self) -> bool {
        self.gets > 0 && self.changes_a_key() && self.changes_a_root() && self.closes > 0
    }

    fn changes_a_key(&self) -> bool {
        self.puts > 0
            && self.absent_puts > 0
            && self.replacements > 0
            && self.expected_replacements > 0
            && self.removals > 0
            && self.expected_removals > 0
    }

    fn changes_a_root(&self) -> bool {
        self.clears > 0 && self.snapshots > 0 && self.freezes > 0
    }
}
