//! Laws of transactions: each is the contract of a function without a body.

ghost use Rattle.eds_read_act.specs.Transactions.{EachHasANumber, NoNameTwice};

/// Each transaction that an element of a component names has a number.
pub fn each_transaction_has_a_number()
    ensures { EachHasANumber }
{}

/// No two transactions of a component have one name.
pub fn no_transaction_twice()
    ensures { NoNameTwice }
{}
