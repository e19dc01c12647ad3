//! Laws of orders. A law is a function that does nothing, and whose contract is the law.

ghost use Rattle.tta_reorder.specs.Statement.{OrdersKeep, OrdersAskNoMore};

/// A list in another order, each of whose items finds what the same items brought, keeps its meaning.
pub fn orders_keep()
    ensures { OrdersKeep }
{}

/// And it asks the machine for no more than the list.
pub fn orders_ask_no_more()
    ensures { OrdersAskNoMore }
{}
