// Theorems about what it is to be a book.
ghost use Rattle.book.specs.Exact.{OneBook, Apart, OneFault, Whole, SameTokens};
ghost use Rattle.book.specs.Numbers.{InOrder};

// A text is at most one book, or has one first fault; it is one of the two, and never both. Rules with the same tokens are the same. The nodes of a rule are
// numbered from 1 without a gap.
pub fn exact()
    ensures one_book { OneBook }
    ensures apart { Apart }
    ensures one_fault { OneFault }
    ensures whole { Whole }
    ensures same_tokens { SameTokens }
    ensures in_order { InOrder }
{}
