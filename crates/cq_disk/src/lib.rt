//! Devices that keep bytes beyond a crash: what their calls promise, and what a crash at any moment may leave.
//! `specs/` holds the rules.
#![tactic(auto)]

mod calls;
mod device;
mod fault;
mod host;
mod memory;
mod modelled;
mod opening;
mod record;
mod region;
mod start;

pub use calls::Calls;
pub use device::{Device, TornWrites};
pub use fault::DeviceFault;
pub use host::Host;
pub use memory::Memory;
pub use modelled::Modelled;
pub use opening::{OpenFault, create, open, open_to_read, put_in_place, remove};
pub use record::{Call, Record};
pub use region::Region;
pub use start::{Start, Unknown};
