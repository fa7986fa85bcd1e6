//! Counting what was checked.

/// How many answers were checked, and which was the first that is not as it must be.
#[derive(Clone, Copy, Default)]
pub struct Score {
    pub count: u32,
    pub wrong: Option<u32>,
}

impl Score {
    /// One answer more.
    pub fn expect(&mut self, holds: bool) {
        self.count = self.count.saturating_add(1);
        if !holds && self.wrong.is_none() {
            self.wrong = Some(self.count);
        }
    }
}
