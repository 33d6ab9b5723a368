//! Orders in memory.
ghost use Rattle.std.specs.Prelude.{◌≡◌, ◌↔◌, ◌≤◌, [], IsErr, IsTrue, Some, vec_len};

use crate::faults::Failed;
use crate::order::Order;
use crate::orders::Orders;
use crate::schedule::Schedule;

/// Orders of a list, from the front to the end. Calls whose numbers are listed fail, and no other call does.
#[derive(Drop)]
pub struct ListOrders {
    orders: Vec<Order>,
    at: usize,
    schedule: Schedule,
    ghost within: { at ≤ vec_len orders },
}

impl ListOrders {
    ghost use Rattle.cmp_ports.specs.Lists.{orders_of, order_faults, order_listed, order_calls};

    /// These orders, and no call fails.
    pub fn new(orders: Vec<Order>) -> ListOrders
        ensures left { orders_of result ≡ orders.items }
        ensures faults { order_faults result ≡ 0 }
        ensures fails { order_listed result ≡ [] }
        ensures calls { order_calls result ≡ 0 }
    {
        ListOrders {
            orders,
            at: 0,
            schedule: Schedule::none(),
        }
    }

    /// These orders, and the calls with these numbers fail, counted from 1.
    pub fn failing(orders: Vec<Order>, fails: Vec<u64>) -> ListOrders
        ensures left { orders_of result ≡ orders.items }
        ensures faults { order_faults result ≡ 0 }
        ensures fails { order_listed result ≡ fails.items }
        ensures calls { order_calls result ≡ 0 }
    {
        ListOrders {
            orders,
            at: 0,
            schedule: Schedule::of(fails),
        }
    }

    /// How many calls failed.
    pub fn faults(&self) -> u64
        ensures { result ≡ order_faults self.now }
    {
        self.schedule.faults()
    }
}

impl Orders for ListOrders {
    ghost use Rattle.cmp_ports.specs.Lists.{orders_of, order_faults, order_listed, order_calls, is_order_due};
    ghost use Rattle.cmp_ports.specs.Coming.{Takes};
    ghost use Rattle.cmp_ports.specs.Faults.{CountedOnce, HasCause};
    ghost use Rattle.cmp_ports.specs.Schedule.{counted};

    ghost left = { λ o. Some (orders_of o) };

    ghost faults = { λ o. order_faults o };

    fn next(&mut self) -> Result<Option<Order>, Failed>
        ensures takes { Takes (Some (orders_of self.old)) (Some (orders_of self.new)) result }
        ensures cause { HasCause (order_faults self.old) (order_faults self.new) result }
        ensures once { CountedOnce (order_faults self.old) (order_faults self.new) result }
        ensures fails { IsErr result ↔ IsTrue (is_order_due self.old) }
        ensures listed { order_listed self.new ≡ order_listed self.old }
        ensures calls { order_calls self.new ≡ counted (order_calls self.old) }
    {
        self.schedule.call()?;
        if self.at == self.orders.len() {
            return Ok(None);
        }
        let order = self.orders[self.at];
        self.at += 1;
        Ok(Some(order))
    }
}
