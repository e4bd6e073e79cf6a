//! What came into a map and didn't go.

/// How many keys came less those that went, and the sum of the values that came less those that went. Both wrap around.
#[derive(Clone, Copy, Debug, PartialEq, Eq)]
pub struct Balance {
    keys: u64,
    values: u64,
}

impl Balance {
    /// Nothing came.
    pub fn nothing() -> Balance {
        Balance { keys: 0, values: 0 }
    }

    /// A value came.
    pub fn add(&mut self, value: u64) {
        self.keys = self.keys.wrapping_add(1);
        self.values = self.values.wrapping_add(value);
    }

    /// A value went, if there was one.
    pub fn take(&mut self, value: Option<u64>) {
        self.keys = self.keys.wrapping_sub(u64::from(value.is_some()));
        self.values = self.values.wrapping_sub(value.unwrap_or(0));
    }

    /// All that came and went elsewhere.
    pub fn join(&mut self, other: Balance) {
        self.keys = self.keys.wrapping_add(other.keys);
        self.values = self.values.wrapping_add(other.values);
    }

    /// How many of the two sums differ.
    pub fn differences(self, other: Balance) -> u64 {
        u64::from(self.keys != other.keys).wrapping_add(u64::from(self.values != other.values))
    }
}
