//! A gate that remembers its points.

use std::alloc::Global;
use std::cell::RefCell;
use yp_worker::{Gate, Point};

/// Points in their order. Where there is no memory for one, it is left out.
#[derive(Drop)]
pub struct Recorder {
    points: RefCell<Vec<Point>>,
}

impl Recorder {
    pub fn new(alloc: Global) -> Recorder {
        Recorder {
            points: RefCell::new(Vec::new(alloc)),
        }
    }

    pub fn into_points(self) -> Vec<Point> {
        let Recorder { points } = self;
        points.into_inner()
    }
}

impl Gate for Recorder {
    fn at(&self, point: Point) {
        if let Ok(mut points) = self.points.try_borrow_mut() {
            let _ = points.push(point);
        }
    }
}
