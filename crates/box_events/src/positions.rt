//! Positions: of a server, of a post, and the names of the boxes that have them.

/// Where a server is: the ends of its common and its secret box, its date, and the number of its settings.
#[derive(Clone, Copy)]
pub struct State {
    pub pts: u32,
    pub qts: u32,
    /// In seconds of the server's clock.
    pub date: u32,
    pub seq: u32,
}

/// Where a server was after a post.
#[derive(Clone, Copy)]
pub struct Receipt {
    pub pts: u32,
    pub qts: u32,
    /// In seconds of the server's clock.
    pub date: u32,
    pub seq: u32,
}

/// What has a position: the common box, the secret box, the box of a channel, or the settings.
#[derive(Clone, Copy, Debug)]
pub enum LaneName {
    Common,
    Secret,
    Channel { id: i64 },
    Seq,
}
