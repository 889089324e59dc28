//! Places side by side, in rows as wide as the picture.
use crate::canvas::Spot;

/// Where the next thing is put.
#[derive(Clone, Copy)]
pub(crate) struct Flow {
    at: Spot,
    left: f64,
    /// How high the highest thing of the row is.
    high: f64,
    limit: f64,
}

impl Flow {
    /// From this corner on, up to there.
    pub(crate) fn new(corner: Spot, limit: f64) -> Flow {
        Flow {
            at: corner,
            left: corner.x,
            high: 0.0,
            limit,
        }
    }

    /// The left upper corner of a thing of this size.
    pub(crate) fn place(&mut self, size: Spot) -> Spot {
        if self.left < self.at.x && self.limit < self.at.x + size.x {
            self.at = Spot {
                x: self.left,
                y: self.at.y + self.high,
            };
            self.high = 0.0;
        }
        let corner = self.at;
        self.at.x += size.x;
        self.high = self.high.max(size.y);
        corner
    }
}
