// The client and what it holds.
use slots::slot::Slots;
use zone::windows::Window;

/// A client over one provider: its slots, and a spare window to fetch into.
#[derive(Drop)]
pub struct Client<P> {
    pub(crate) provider: P,
    pub(crate) slots: Slots,
    pub(crate) spare: Window,
}
