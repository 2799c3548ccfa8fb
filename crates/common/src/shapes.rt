// A dimension and an order that calls take: tested once, where they come in.
ghost use Rattle.std.specs.Prelude.{◌≡◌, ◌^◌, ◌<◌, IfOk};
ghost use Rattle.common.specs.Digits.{digit};
ghost use Rattle.common.specs.Refusals.{Shape as Taken};

use crate::{Refusal, check_order, power};

// A dimension of 1 to 3, and an order of 1 to 16: how many nodes a block has on each axis.
#[derive(Clone, Copy)]
pub struct Shape {
    pub dimension: usize,
    pub order: usize,
    ghost taken: { Taken dimension order },
}

impl Shape {
    ghost use Rattle.common.specs.Numbers.{told_number};
    ghost use Rattle.common.specs.Refusals.{shape_number};

    pub fn new(dimension: usize, order: usize) -> Result<Self, Refusal>
        ensures number { told_number result ≡ shape_number dimension order }
        ensures shape { IfOk result (λ s. (s.dimension ≡ dimension) × (s.order ≡ order)) }
    {
        if dimension < 1 || 3 < dimension {
            return Err(Refusal::NoDimension);
        }
        check_order(order)?;
        Ok(Shape { dimension, order })
    }

    // How many nodes a block has.
    pub fn nodes(self) -> usize
        ensures { result ≡ self.order ^ self.dimension }
    {
        power(self.order, self.dimension)
    }

    // A node's index on an axis: the node's digit there, the last axis varying fastest.
    pub fn index_on(self, axis: usize, node: usize) -> usize
        requires { axis < self.dimension }
        ensures { result ≡ digit self.order self.dimension axis node }
    {
        let after = self.dimension - 1 - axis;
        if after == 0 {
            return node % self.order;
        }
        if after == 1 {
            return node / self.order % self.order;
        }
        node / (self.order * self.order) % self.order
    }
}
