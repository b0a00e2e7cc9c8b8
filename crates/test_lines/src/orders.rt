use flat_machine::Order;

/// Whether the order has these members and no more.
pub fn is_order(order: &Order, members: &[u8]) -> bool {
    for (t, k) in members.iter().enumerate() {
        if order.get(t) != Some(*k) {
            return false;
        }
    }
    order.count() == members.len()
}
