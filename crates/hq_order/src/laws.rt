//! Laws of orders, those of the model.

ghost use Rattle.hq_model.specs.Order.{OrderListsExtend, NoneWhereStuck};
ghost use Rattle.hq_model.specs.Schedule.{SchedulesSettle, OrderedOrStuck};
ghost use Rattle.hq_order.specs.View.{ScopesLeaveRounds};

use hq_model::order;

/// Every order list extends the job's order.
pub fn order_lists_extend()
    ensures { OrderListsExtend }
{
    order::order_lists_extend();
}

/// No order list exists where a stuck set does.
pub fn none_where_stuck()
    ensures { NoneWhereStuck }
{
    order::none_where_stuck();
}

/// A list that packets may come to, until none may, is an order list or leaves what is stuck.
pub fn schedules_settle()
    ensures { SchedulesSettle }
{
    order::schedules_settle();
}

/// Each job has an order list or a stuck set.
pub fn ordered_or_stuck()
    ensures { OrderedOrStuck }
{
    order::ordered_or_stuck();
}

/// The order of a job rests on no fence.
pub fn scopes_leave_rounds()
    ensures { ScopesLeaveRounds }
{}
