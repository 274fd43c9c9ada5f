// The nodes of an order as a list.
ghost use Rattle.std.specs.Prelude.{◌≡◌};
ghost use Rattle.graph.specs.Found.{listed};

use super::NodeOrder;

impl NodeOrder {
    /// The node numbers in their order.
    pub fn as_slice(&self) -> &[u8]
        ensures { result.now ≡ listed self.now }
    {
        &self.nodes[..self.count]
    }
}
