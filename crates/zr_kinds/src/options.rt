use crate::behaviour::Behaviour;

/// The options of a replay, but for those of its areas.
#[derive(Clone, Copy, Debug, PartialEq, Eq)]
pub struct Options {
    /// How many places each ring has.
    pub ring: u32,
    /// The greatest payload that travels in its note, in bytes.
    pub split: u32,
    /// How each application behaves. Where it is polled or forwards, this isn't looked at.
    pub how: Behaviour,
    /// Each application's loans are polled as a stream, which is poured into its shelf.
    pub polled: bool,
    /// Each application forwards its loans by a carrier over its shelf, which tells of a loan once so many more went out: 0 to 63.
    pub forward: Option<u32>,
    /// The record of the run's first events is asked for.
    pub events: bool,
}
