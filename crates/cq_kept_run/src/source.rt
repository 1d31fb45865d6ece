//! Files of journals, opened to be read.

use crate::KeptFault;
use cq_disk::{Device, Host, Modelled, Unknown, open_to_read};

/// What opens something as a device, as it is at that moment, as often as it is asked.
pub(crate) trait Opens<D: Device> {
    fn open(&self) -> Result<D, KeptFault>;
}

/// A journal's file, which is read while another program may have it.
#[derive(Drop)]
pub(crate) struct Source<'a> {
    pub(crate) rt: &'a HostRuntime,
    pub(crate) path: &'a str,
}

impl Opens<Modelled<Host, Unknown>> for Source<'_> {
    fn open(&self) -> Result<Modelled<Host, Unknown>, KeptFault> {
        Ok(open_to_read(self.rt, self.path, Unknown)?)
    }
}
