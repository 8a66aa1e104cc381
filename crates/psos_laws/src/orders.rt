// Laws of orders.
ghost use Rattle.psos_model.specs.Laws.{OrdersEnd, CompleteOrdersHaveAll};

/// A legal order from a start has at most 32,768 requests (docs/promises.md, "Runs").
pub fn orders_end()
    ensures { OrdersEnd }
{}

/// A complete order has each user's script requests once and in order (docs/promises.md, "Runs").
pub fn complete_orders_have_all()
    ensures { CompleteOrdersHaveAll }
{}
