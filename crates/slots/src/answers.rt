// The answer to a query.
use cutting::locals::Local;
use provider::requests::Edition;

/// The answer to a query: the edition that was asked, and the local time by it.
#[derive(Clone, Copy)]
pub struct Answer {
    pub edition: Edition,
    pub local: Local,
}
