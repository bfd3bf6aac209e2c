//! Room: device. A device that runs an application whose certificate fits: it answers as the chart machine of its text, within the certified bounds.
//! `load` accepts only texts that fit, and refuses those that fit for want of memory alone. Each call is one step of the book's device, and from each state that it
//! comes to causes are bounded and end, queues keep their depth, and nothing traps (`IsBounded`).
#![tactic(auto)]

mod answer;
mod device;
mod due;
mod law;
mod loading;
mod look;
mod names;
mod refusal;
mod sharing;

pub use answer::{Answer, Opening, Step};
pub use device::Device;
pub use fb_chart::{Condition, Effect, Store, Values};
pub use fb_device_arrivals::Denied;
pub use fb_device_dispatch::{Dispatched, Ended, Ran};
pub use law::long_datagrams_are_denied;
pub use loading::{Ready, load, load_boot, load_checked, load_from};
pub use look::{Fill, Look};
pub use refusal::Refusal;
pub use sharing::{release, share};
