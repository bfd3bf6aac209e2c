//! Room: device. The queue of a resource with its causes and their credit, what a block emits until it is entered, and the armed timers of a device.
//! Each call changes exactly what it says; laws read entries, credit and steps off it in the book's words. Timers stand by their moments, then by their blocks.
//! No call but `new` changes the room that there is for entries, causes, timers and emissions, and none but `new` needs memory: whatever a call might ask for may be
//! refused, and what it promises holds then too. Not said: that `new` succeeds, that no call takes memory and gives it back, and what a call costs.
#![tactic(auto)]

mod armed;
mod law;
mod outbox;
mod queue;
mod reaction;
mod ticket;
mod timer_law;
mod timers;

pub use armed::Armed;
pub use law::{
    causes_stay_pending, credit_by_call, credit_is_held, entries_by_call, pending_by_slot,
    pending_reactions_fit, steps_by_call, steps_by_slot,
};
pub use outbox::Outbox;
pub use queue::Queue;
pub use reaction::Reaction;
pub use ticket::Ticket;
pub use timer_law::{arming_adds, disarming_clears, due_timer_is_leaf, due_timers_are_leaves};
pub use timers::Timers;
