//! Opening a queue.

ghost use Rattle.std.specs.Prelude.{◌≡◌};
ghost use Rattle.desk_model.specs.Commands.OpenQueue as open_queue;
ghost use Rattle.desk_model.specs.Condition.{Passes};
ghost use Rattle.desk_core.specs.DecisionContext.{call_of, DecidesOnQueue};

use crate::decision::DecisionContext;
use desk_model::{Change, QueueRow, Refusal};
use rights_core::right;
use text_core::Text;

/// The most queues that a desk opens.
const MAX_QUEUES: u32 = 1_000;

impl DecisionContext<'_> {
    /// Opens a queue.
    pub(super) fn open_queue(
        &self,
        name: &Text,
        lifecycle: &Text,
        level: &Option<Text>,
    ) -> Result<Change, Refusal>
        ensures { DecidesOnQueue result (open_queue.conditions name.now)
            (open_queue.change name.now lifecycle.now level.now) self.now }
    {
        self.ask_to_open(name)?;
        let queue = QueueRow {
            name: name.clone()?,
            lifecycle: lifecycle.clone()?,
            level: level.clone()?,
        };
        Ok(Change::opening(self.alloc, queue))
    }

    #[tactic(auto, unfolding(rights_core::specs::Right::admin_queue))]
    fn ask_to_open(&self, name: &Text) -> Result<(), Refusal>
        ensures { Passes result
            (open_queue.conditions name.now (call_of self.now) self.now.facts.now) }
    {
        self.ask_on_queue(right::ADMIN_QUEUE, name)?;
        if self.facts.queue.is_some() {
            return Err(Refusal::Exists);
        }
        if self.facts.queue_count >= MAX_QUEUES {
            return Err(Refusal::Full);
        }
        Ok(())
    }
}
