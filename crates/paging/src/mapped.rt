use base::block::{Frame, Page, Process};

// A page of a process that has a frame, and that frame.
#[derive(Clone, Copy, Debug, PartialEq, Eq)]
pub struct MappedPage {
    pub process: Process,
    pub page: Page,
    pub frame: Frame,
}
