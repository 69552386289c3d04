use kd_config::Config;
use kd_event::Ports;
use std::alloc::Global;

/// What a server works with: its allocator, its ports and its configuration.
#[derive(Clone, Copy)]
pub struct Terms<'a> {
    /// The allocator that memory comes from.
    pub alloc: Global,
    /// The ports that replies go to.
    pub ports: Ports,
    /// The configuration.
    pub config: &'a Config,
}
