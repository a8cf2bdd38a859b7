//! Laws of the order of intervals. The function is a law and does nothing.

ghost use Rattle.strided.specs.Order.{IntervalsAreOrdered, EqualIntervalsAreOne};

/// The order of intervals is total, and two that are equal in it are one interval.
pub fn interval_order()
    ensures ordered { IntervalsAreOrdered }
    ensures equal { EqualIntervalsAreOne }
{}
