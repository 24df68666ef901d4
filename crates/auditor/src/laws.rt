// What holds of the account of a take. The function stands for the law that its contract states.
ghost use Rattle.auditor.specs.Account.{TakeLaw};

// The account of a take is what its rule says in words, and nothing else is.
pub fn one_way_to_take()
    ensures { TakeLaw }
{}
