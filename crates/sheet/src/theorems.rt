// What is shown of sheets: each function's contract is a theorem, and the function does nothing.
// Stays: a theorem is asked for by the contract of a function of its own.
ghost use Rattle.sheet.specs.Orders.{OrdersAsWritten};
ghost use Rattle.sheet.specs.Reading.{NoLineLost};

// What the reader yields from the start of a sheet to its end is all of the sheet.
pub fn no_line_is_lost()
    ensures { NoLineLost }
{}

// A line is an order exactly when it is that order written out.
pub fn orders_are_as_written()
    ensures { OrdersAsWritten }
{}
