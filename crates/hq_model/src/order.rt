//! The order of packets, and lists that keep it.

ghost use Rattle.hq_model.specs.Order.{OrderListsExtend, NoneWhereStuck};
ghost use Rattle.hq_model.specs.Schedule.{SchedulesSettle, OrderedOrStuck};
ghost use Rattle.hq_model.specs.HoldsBack.{HoldsBackExact, FullOrderExact};

/// Every order list extends the job's order.
pub fn order_lists_extend()
    ensures { OrderListsExtend }
{}

/// No order list exists where a stuck set does.
pub fn none_where_stuck()
    ensures { NoneWhereStuck }
{}

/// A list that packets may come to, until none may, is an order list or leaves what is stuck.
pub fn schedules_settle()
    ensures { SchedulesSettle }
{}

/// Each job has an order list or a stuck set.
pub fn ordered_or_stuck()
    ensures { OrderedOrStuck }
{}

/// Without rings, a packet is complete before another begins, in every run, exactly where it holds that one back.
pub fn holds_back_exact()
    ensures { HoldsBackExact }
{}

/// Without rings, and where an order list has each barrier-OR after the packets of all its dependencies, a packet is
/// complete before another begins, in every run, exactly where it is before that one.
pub fn full_order_exact()
    ensures { FullOrderExact }
{}
