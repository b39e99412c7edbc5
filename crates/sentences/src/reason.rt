// A pair, the points x and y as the neighbours of the split point c.
#[derive(Clone, Copy)]
pub struct Pair {
    pub c: u16,
    pub x: u16,
    pub y: u16,
}

// Why a pair does not stand at the first split of a line, or how its case is closed (02, Paper 6). A case that stands
// at a first split is always closed by a further split, so the other closings have no variant here (they have their
// sentences in `specs/`).
#[derive(Clone, Copy)]
pub enum Reason {
    // the pair's edge pq is not open
    Struck {
        p: u16,
        q: u16,
    },
    // the point gets a third edge
    Third(u16),
    // three points are closed to a loop
    Loop {
        p: u16,
        q: u16,
        r: u16,
    },
    // exchanging the pair's edge pq and the edge uv saves so much
    Exchange {
        p: u16,
        q: u16,
        u: u16,
        v: u16,
        saved: u32,
    },
    // moving the point w to between u and v saves so much
    Move {
        w: u16,
        u: u16,
        v: u16,
        saved: u32,
    },
    // the pair stands, and its case is a further split at the point
    Split(u16),
}
