//! Laws of forms. Each is the contract of a function that does nothing.
ghost use Rattle.sbx_form.specs.Laws.{LeastIsLeast, SumsHaveTheSum, SumsStayInOrder};

/// One more term adds its value, and k times a list of terms adds k times theirs, whatever the numbers are.
pub fn sums_have_the_sum()
    ensures { SumsHaveTheSum }
{}

/// Terms stay in ascending order, and there is at most one more.
pub fn sums_stay_in_order()
    ensures { SumsStayInOrder }
{}

/// No numbers of the ranges make terms less than their least value, and some numbers make them that.
pub fn least_is_least()
    ensures { LeastIsLeast }
{}
