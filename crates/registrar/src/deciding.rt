// What is decided of a statement before anything is written.

ghost use Rattle.std.specs.Prelude.{◌≡◌, Some};
ghost use Rattle.statement.specs.Said.{said_of};
ghost use Rattle.log_replay.specs.declared.words.Judgement.TheVariants.{Admit};
ghost use Rattle.log_replay.specs.Records.{header_of, entries_of};
ghost use Rattle.log_replay.specs.Judging.{judge as judge_after, moment_after};
ghost use Rattle.registrar.specs.Deciding.{Decides};

use crate::registrar::Registrar;
use log_replay::{Checked, Header, Judgement, entry_law, growth_laws};
use scitt_disk::Disk;

/// The ruling on a statement.
#[derive(Clone, Copy)]
pub enum Decision {
    /// The log holds it, as the entry at this index.
    Known(u32),
    /// This rule denies it, on the log of this size, at this moment.
    Denied { rule: u16, size: u32, moment: u64 },
    /// The log has no room: its entries, and its logged bytes with this statement.
    Full { entries: u32, bytes: u64 },
    /// No index is left.
    Spent { next: u64, capacity: u64 },
    /// This rule admits it, at this moment.
    Goes { rule: u16, at: u64 },
}

const MOST_LOGGED_BYTES: u64 = 536_870_912;

impl<D: Disk> Registrar<D> {
    // Whether there is room and an index for a statement that is admitted.
    fn find_room(
        &self,
        header: &Header,
        checked: &Checked,
        moment: u64,
        rule: u16,
        at: u64,
    ) -> Decision
        requires header { header_of self.now.standing.log ≡ Some header.now }
        requires judged { judge_after header.now (entries_of self.now.standing.log) (said_of checked.now.statement) moment ≡ Admit rule }
        requires at { at ≡ moment_after (entries_of self.now.standing.log) moment }
        ensures { Decides self.now.standing (said_of checked.now.statement) moment result }
    {
        growth_laws();
        entry_law(&checked.statement, at, rule);
        let entries = self.state.size();
        let bytes = self.state.logged_bytes() + checked.statement.logged.len() as u64;
        if entries == header.max_entries {
            return Decision::Full { entries, bytes };
        }
        if bytes > MOST_LOGGED_BYTES {
            return Decision::Full { entries, bytes };
        }
        let capacity = header.levels.capacity();
        if self.next == capacity {
            return Decision::Spent {
                next: self.next,
                capacity,
            };
        }
        Decision::Goes { rule, at }
    }

    // The judgement of a statement, and whether there is room and an index where it is admitted. It takes no memory.
    pub(crate) fn decide(&self, checked: &Checked, moment: u64) -> Decision
        ensures { Decides self.now.standing (said_of checked.now.statement) moment result }
    {
        let Some(header) = self.state.header() else {
            unreachable!()
        };
        let (judgement, at) = self.state.judge(checked, moment);
        match judgement {
            Judgement::Known(index) => Decision::Known(index),
            Judgement::Deny(rule) => Decision::Denied {
                rule,
                size: self.state.size(),
                moment: at,
            },
            Judgement::Admit(rule) => self.find_room(header, checked, moment, rule, at),
        }
    }
}
